//! Frames that are held until their stream's head comes.

ghost use Rattle.std.specs.Prelude.{◌≡◌, ◌≤◌, ◌-◌, ◌+◌, ◌^◌, ◌∷◌, [], length, min, not, filter, vec_len, vec_capacity};
ghost use Rattle.std.specs.List.{list_any};
ghost use Rattle.h2_laws_log.specs.Calling.{all_entered};
ghost use Rattle.h2_model.specs.Log.{stream_of};
ghost use Rattle.h2_model.specs.History.{frame_in, is_of};
ghost use Rattle.h2_model.specs.Moves.{kept_held};
ghost use Rattle.h2_model.specs.Queue.{has_bytes, data_in};
ghost use Rattle.h2_model.specs.Windows.{held_data};
ghost use Rattle.h2_sender.specs.Outgoing.{IsSendable};
ghost use Rattle.h2_sender.specs.Sending.{entry_control, held_control, data_kept};

use crate::frames::{data_in, has_bytes, is_data, len_of, stream_of};
use crate::queue::FrameQueue;
use h2_frames::Frame;
use std::marker::Model;

/// A frame that is held until its stream's head comes.
#[derive(Drop)]
pub(crate) struct Held {
    /// It is owed for a frame that came, and wasn't handed over.
    pub(crate) owed: bool,
    pub(crate) frame: Frame,
}

impl Model for Held {
    ghost use Rattle.h2_model.specs.Log.{LogEntry};
    ghost use Rattle.h2_sender.specs.Sending.{entry_of, IsHeld};

    ghost Value = { LogEntry };

    ghost view = { λ h. entry_of h.owed h.frame };

    ghost invariant = { λ h. IsHeld h.owed h.frame };
}

impl Held {
    // The bytes of DATA for a stream, or, for stream 0, for any.
    fn data(&self, id: u32) -> u64
        ensures { result ≡ held_data id (self.now ∷ []) }
    {
        data_in(id, &self.frame)
    }

    // The bytes that are no part of DATA.
    fn control(&self) -> u64
        ensures { result ≡ entry_control self.now }
    {
        if is_data(&self.frame) {
            return 0;
        }
        len_of(&self.frame) as u64
    }

    fn stream(&self) -> u32
        ensures { result ≡ stream_of (frame_in self.now) }
    {
        stream_of(&self.frame)
    }

    // Whether it is DATA with content.
    fn has_bytes(&self) -> bool
        ensures { result ≡ has_bytes (frame_in self.now) }
    {
        has_bytes(&self.frame)
    }

    fn into_frame(self) -> Frame
        ensures frame { result ≡ frame_in self }
        ensures sendable { IsSendable result }
        ensures bytes { data_in 0 result ≡ held_data 0 (self ∷ []) }
    {
        self.frame
    }
}

// Drops the bytes of a stream that are held.
pub(crate) fn drop_held(held: &mut Vec<Held>, id: u32)
    ensures items { held.new.items ≡ kept_held id held.old.items }
    ensures len { vec_len held.new ≤ vec_len held.old }
    ensures capacity { vec_capacity held.new ≡ vec_capacity held.old }
{
    held.retain(|h| !(h.has_bytes() && h.stream() == id));
}

// The frames that are held for a stream enter the queue, the oldest first.
pub(crate) fn release_held(held: &mut Vec<Held>, id: u32, queue: &mut FrameQueue)
    requires room { length (filter (is_of id) held.old.items) ≤ queue.old.room }
    requires bound { data_kept queue.old.frames held.old.items ≤ 2 ^ 40 }
    ensures waiting { queue.new.frames ≡ all_entered (filter (is_of id) held.old.items) queue.old.frames }
    ensures items { held.new.items ≡ filter (λ e. not (is_of id e)) held.old.items }
    ensures sum { data_kept queue.new.frames held.new.items ≡ data_kept queue.old.frames held.old.items }
    ensures room { queue.old.room ≤ queue.new.room + length (filter (is_of id) held.old.items) }
    ensures len { vec_len held.new ≤ vec_len held.old }
    ensures capacity { vec_capacity held.new ≡ vec_capacity held.old }
{
    let mut at = 0;
    while at < held.len() {
        if held[at].stream() == id {
            let first = held.remove(at);
            queue.enter(first.into_frame());
        } else {
            at += 1;
        }
    }
}

// The bytes of DATA that are held.
pub(crate) fn held_data(held: &[Held]) -> u64
    requires { held_data 0 held.now ≤ 2 ^ 40 }
    ensures { result ≡ held_data 0 held.now }
{
    let mut data = 0;
    for h in held {
        data += h.data(0);
    }
    data
}

// The bytes of one stream's DATA that are held.
pub(crate) fn held_data_of(held: &[Held], id: u32) -> u64
    requires { held_data id held.now ≤ 2 ^ 40 }
    ensures { result ≡ held_data id held.now }
{
    let mut data = 0;
    for h in held {
        data += h.data(id);
    }
    data
}

// The bytes of held frames other than DATA.
pub(crate) fn held_control(held: &[Held]) -> u64
    ensures { result ≡ min (held_control held.now) (2 ^ 64 - 1) }
{
    let mut bytes: u64 = 0;
    for h in held {
        bytes = bytes.saturating_add(h.control());
    }
    bytes
}

pub(crate) fn holds(held: &[Held], id: u32) -> bool
    ensures { result ≡ list_any (is_of id) held.now }
{
    held.iter().any(|h| h.stream() == id)
}
