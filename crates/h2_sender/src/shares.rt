//! What waits of each stream, so that an answer about one stream costs the same however many frames wait.

ghost use Rattle.std.specs.Prelude.{◌≡◌, ◌≤◌, ◌<◌, ◌+◌, ◌^◌, ℕ, length, if◌then◌else◌, ◌==◌, IfOk, IfErr};
ghost use Rattle.std.specs.List.{insert};
ghost use Rattle.std.specs.VecDeque.{deque_len, deque_capacity};
ghost use Rattle.h2_model.specs.Log.{stream_of};
ghost use Rattle.h2_model.specs.Queue.{queued};
ghost use Rattle.h2_sender.specs.Shares.{AreInOrder, AreShared, IsAt, IsGap, frames_of, bytes_of, all_frames, bytes_left, bytes_for, counted, counted_for, gone_whole};

use crate::outgoing::Outgoing;
use std::collections::VecDeque;

/// What waits of one stream.
#[derive(Clone, Copy)]
pub(crate) struct Share {
    pub(crate) stream: u32,
    /// How many frames that are no window updates.
    pub(crate) frames: usize,
    /// How many bytes of DATA that weren't given.
    pub(crate) bytes: u64,
}

// Where a stream stands, or where it would.
fn find(shares: &VecDeque<Share>, id: u32) -> Result<usize, usize>
    requires { AreInOrder shares.now.items }
    ensures at { IfOk result (λ at. IsAt id at shares.now.items) }
    ensures gap { IfErr result (λ at. IsGap id at shares.now.items) }
{
    let at = shares.partition_point(|share| share.stream < id);
    if at >= shares.len() {
        return Err(at);
    }
    if shares[at].stream != id {
        return Err(at);
    }
    Ok(at)
}

/// How many frames of a stream wait.
pub(crate) fn frames_of(shares: &VecDeque<Share>, id: u32) -> usize
    requires { AreInOrder shares.now.items }
    ensures { result ≡ frames_of id shares.now.items }
{
    match find(shares, id) {
        Ok(at) => shares[at].frames,
        Err(_) => 0,
    }
}

/// How many bytes of a stream's DATA wait.
pub(crate) fn bytes_of(shares: &VecDeque<Share>, id: u32) -> u64
    requires { AreInOrder shares.now.items }
    ensures { result ≡ bytes_of id shares.now.items }
{
    match find(shares, id) {
        Ok(at) => shares[at].bytes,
        Err(_) => 0,
    }
}

/// One more frame of a stream waits.
pub(crate) fn add(shares: &mut VecDeque<Share>, id: u32, bytes: u64)
    requires order { AreInOrder shares.old.items }
    requires room { deque_len shares.old < deque_capacity shares.old }
    requires few { all_frames shares.old.items + 1 < 2 ^ 64 }
    requires bound { bytes_of id shares.old.items + bytes ≤ 2 ^ 40 }
    ensures order { AreInOrder shares.new.items }
    ensures frames { (n : ℕ) → frames_of n shares.new.items
        ≡ frames_of n shares.old.items + (if id == n then 1 else 0) }
    ensures bytes { (n : ℕ) → bytes_of n shares.new.items
        ≡ bytes_of n shares.old.items + (if id == n then bytes else 0) }
    ensures all { all_frames shares.new.items ≡ all_frames shares.old.items + 1 }
    ensures capacity { deque_capacity shares.old ≤ deque_capacity shares.new }
{
    match find(shares, id) {
        Ok(at) => {
            let share = shares[at];
            shares[at] = Share {
                stream: id,
                frames: share.frames + 1,
                bytes: share.bytes + bytes,
            };
        }
        Err(at) => put(
            shares,
            at,
            Share {
                stream: id,
                frames: 1,
                bytes,
            },
        ),
    }
}

// There is room for it, so that `insert` does not fail.
fn put(shares: &mut VecDeque<Share>, at: usize, share: Share)
    requires place { at ≤ length shares.old.items }
    requires room { deque_len shares.old < deque_capacity shares.old }
    ensures items { shares.new.items ≡ insert shares.old.items at share }
    ensures capacity { deque_capacity shares.old ≤ deque_capacity shares.new }
{
    let _ = shares.insert(at, share);
}

/// So many bytes of a stream were given, and so many of its frames whole.
pub(crate) fn remove(shares: &mut VecDeque<Share>, id: u32, frames: usize, bytes: u64)
    requires order { AreInOrder shares.old.items }
    requires frames { frames ≤ frames_of id shares.old.items }
    requires bytes { bytes ≤ bytes_of id shares.old.items }
    requires last { frames_of id shares.old.items ≡ frames → bytes_of id shares.old.items ≡ bytes }
    ensures order { AreInOrder shares.new.items }
    ensures frames { (n : ℕ) → frames_of n shares.new.items + (if id == n then frames else 0)
        ≡ frames_of n shares.old.items }
    ensures bytes { (n : ℕ) → bytes_of n shares.new.items + (if id == n then bytes else 0)
        ≡ bytes_of n shares.old.items }
    ensures all { all_frames shares.new.items + frames ≡ all_frames shares.old.items }
    ensures capacity { deque_capacity shares.old ≤ deque_capacity shares.new }
{
    let Ok(at) = find(shares, id) else {
        return;
    };
    let share = shares[at];
    if frames == share.frames {
        shares.remove(at);
        return;
    }
    shares[at] = Share {
        stream: id,
        frames: share.frames - frames,
        bytes: share.bytes - bytes,
    };
}

/// A frame waits. Window updates aren't counted.
pub(crate) fn count(shares: &mut VecDeque<Share>, frame: &Outgoing)
    requires order { AreInOrder shares.old.items }
    requires room { deque_len shares.old < deque_capacity shares.old }
    requires few { all_frames shares.old.items + 1 < 2 ^ 64 }
    requires bound { bytes_of (stream_of frame.now.frame) shares.old.items + bytes_left frame.now ≤ 2 ^ 40 }
    ensures order { AreInOrder shares.new.items }
    ensures frames { (n : ℕ) → frames_of n shares.new.items ≡ frames_of n shares.old.items + counted_for n frame.now }
    ensures bytes { (n : ℕ) → bytes_of n shares.new.items ≡ bytes_of n shares.old.items + bytes_for n frame.now }
    ensures all { all_frames shares.new.items ≡ all_frames shares.old.items + counted frame.now }
    ensures capacity { deque_capacity shares.old ≤ deque_capacity shares.new }
{
    if frame.is_counted() {
        add(shares, frame.stream(), frame.unsent(0));
    }
}

/// So many bytes of DATA were given of a frame, and all of it where it is whole.
pub(crate) fn uncount(shares: &mut VecDeque<Share>, frame: &Outgoing, whole: bool, bytes: u64)
    requires order { AreInOrder shares.old.items }
    requires frames { gone_whole whole frame.now ≤ frames_of (stream_of frame.now.frame) shares.old.items }
    requires bytes { bytes ≤ bytes_of (stream_of frame.now.frame) shares.old.items }
    requires last { frames_of (stream_of frame.now.frame) shares.old.items ≡ gone_whole whole frame.now →
        bytes_of (stream_of frame.now.frame) shares.old.items ≡ bytes }
    ensures order { AreInOrder shares.new.items }
    ensures frames { (n : ℕ) → frames_of n shares.new.items
        + (if stream_of frame.now.frame == n then gone_whole whole frame.now else 0) ≡ frames_of n shares.old.items }
    ensures bytes { (n : ℕ) → bytes_of n shares.new.items + (if stream_of frame.now.frame == n then bytes else 0)
        ≡ bytes_of n shares.old.items }
    ensures all { all_frames shares.new.items + gone_whole whole frame.now ≡ all_frames shares.old.items }
    ensures capacity { deque_capacity shares.old ≤ deque_capacity shares.new }
{
    let frames = if whole && frame.is_counted() { 1 } else { 0 };
    remove(shares, frame.stream(), frames, bytes);
}

/// Counts all that wait anew.
pub(crate) fn recount(shares: &mut VecDeque<Share>, frames: &VecDeque<Outgoing>)
    requires room { deque_len frames.now ≤ deque_capacity shares.old }
    requires bound { queued 0 frames.now.items ≤ 2 ^ 40 }
    ensures shared { AreShared frames.now.items shares.new.items }
    ensures capacity { deque_capacity shares.old ≤ deque_capacity shares.new }
{
    shares.clear();
    for i in 0..frames.len() {
        count(shares, &frames[i]);
    }
}
