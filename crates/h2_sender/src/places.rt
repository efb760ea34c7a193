//! Where a frame enters the queue.
//!
//! The front of the queue is what stands before the first DATA that others may pass. Searches go from the back of the
//! queue to the front, and not into it, so that control frames cost the same however many of them wait.

ghost use Rattle.std.specs.Prelude.{◌≡◌, ◌<◌, ◌≤◌, ◌+◌, length};
ghost use Rattle.std.specs.List.{insert};
ghost use Rattle.std.specs.VecDeque.{deque_len, deque_capacity};
ghost use Rattle.h2_model.specs.Queue.{placed, with_end_placed};
ghost use Rattle.h2_sender.specs.Places.{place_of, ready_for, IsFront, IsLastFree};

use crate::frames::{is_reset, stream_of};
use crate::outgoing::Outgoing;
use h2_frames::Frame;
use std::collections::VecDeque;

/// The length of the front, of which the first `front` frames are known.
pub(crate) fn front_of(frames: &VecDeque<Outgoing>, front: usize) -> usize
    requires { IsFront front frames.now.items }
    ensures { IsFront result frames.now.items }
{
    for i in front..frames.len() {
        if frames[i].is_free() {
            return i;
        }
    }
    frames.len()
}

// The place of a frame: the end for DATA that others may pass and for an acknowledgement, and otherwise before the
// first such DATA behind which no frame stands that this one must stay behind.
fn place_of(frames: &VecDeque<Outgoing>, front: usize, new: &Outgoing) -> usize
    requires { IsFront front frames.now.items }
    ensures { result ≡ place_of new.now frames.now.items }
{
    let len = frames.len();
    if new.goes_last() {
        return len;
    }
    let mut place = len;
    // Prover: the label names the loop in its proof, here and elsewhere.
    'places: for i in (front..len).rev() {
        let earlier = &frames[i];
        if new.stays_behind(earlier) {
            return place;
        }
        if earlier.is_free() {
            place = i;
        }
    }
    place
}

// Puts a frame at a place. There is room for it, so that `insert` does not fail.
fn put(frames: &mut VecDeque<Outgoing>, at: usize, new: Outgoing)
    requires place { at ≤ length frames.old.items }
    requires room { deque_len frames.old < deque_capacity frames.old }
    ensures items { frames.new.items ≡ insert frames.old.items at new }
    ensures len { deque_len frames.new ≡ deque_len frames.old + 1 }
    ensures capacity { deque_capacity frames.old ≤ deque_capacity frames.new }
{
    let _ = frames.insert(at, new);
}

/// Puts a frame at its place, and tells the length of the front.
pub(crate) fn place(frames: &mut VecDeque<Outgoing>, front: usize, new: Outgoing) -> usize
    requires room { deque_len frames.old < deque_capacity frames.old }
    requires front { IsFront front frames.old.items }
    ensures front { IsFront result frames.new.items }
    ensures items { frames.new.items ≡ placed new frames.old.items }
    ensures len { deque_len frames.new ≡ deque_len frames.old + 1 }
    ensures capacity { deque_capacity frames.old ≤ deque_capacity frames.new }
{
    let free = new.is_free();
    let at = place_of(frames, front, &new);
    put(frames, at, new);
    if free {
        return front;
    }
    if at > front {
        return front;
    }
    front + 1
}

// The last DATA of a stream that others may pass.
fn last_free(frames: &VecDeque<Outgoing>, front: usize, stream: u32) -> Option<usize>
    requires { IsFront front frames.now.items }
    ensures { IsLastFree stream frames.now.items result }
{
    for i in (front..frames.len()).rev() {
        if frames[i].is_free_of(stream) {
            return Some(i);
        }
    }
    None
}

/// Gives the DATA of a stream the place that a reset behind it would have, and tells the length of the front. A stream
/// that is reset has one such frame at most, its end.
pub(crate) fn place_ends(frames: &mut VecDeque<Outgoing>, front: usize, stream: u32) -> usize
    requires room { deque_len frames.old ≤ deque_capacity frames.old }
    requires front { IsFront front frames.old.items }
    ensures front { IsFront result frames.new.items }
    ensures items { frames.new.items ≡ with_end_placed stream frames.old.items }
    ensures len { deque_len frames.new ≡ deque_len frames.old }
    ensures capacity { deque_capacity frames.old ≤ deque_capacity frames.new }
{
    let Some(i) = last_free(frames, front, stream) else {
        return front;
    };
    let Some(end) = frames.remove(i) else {
        return front;
    };
    let rest = place_ends(frames, front, stream);
    let whole = front_of(frames, rest);
    place(frames, whole, end.with_place())
}

/// Makes the queue ready for a frame, and tells the length of the front: a reset gives its stream's DATA another place.
pub(crate) fn make_ready(frames: &mut VecDeque<Outgoing>, front: usize, frame: &Frame) -> usize
    requires room { deque_len frames.old ≤ deque_capacity frames.old }
    requires front { IsFront front frames.old.items }
    ensures front { IsFront result frames.new.items }
    ensures items { frames.new.items ≡ ready_for frame.now frames.old.items }
    ensures len { deque_len frames.new ≡ deque_len frames.old }
    ensures capacity { deque_capacity frames.old ≤ deque_capacity frames.new }
{
    if !is_reset(frame) {
        return front;
    }
    place_ends(frames, front, stream_of(frame))
}
