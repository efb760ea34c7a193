//! What goes out: the frames that wait, those held for their stream's head, and the connection's sending window.

ghost use Rattle.std.specs.Prelude.{◌≡◌, ◌≤◌, ◌<◌, ◌+◌, ◌-◌, ◌^◌, ◌++◌, ◌∷◌, [], length, true, false, not, filter, IfOk, OnOk, OnErr, pos, ◌+ℤ◌, ◌-ℤ◌, ◌≤ℤ◌, ◌⊎◌, nat_le, min, take, drop, vec_len, vec_capacity};
ghost use Rattle.h2_model.specs.History.{start, is_of};
ghost use Rattle.h2_model.specs.Moves.{kept_waiting, kept_held};
ghost use Rattle.h2_model.specs.Queue.{entered, data_in, is_free_content, fresh, flow, behind, whole_within};
ghost use Rattle.h2_sender.specs.Outgoing.{IsSendable};
ghost use Rattle.std.specs.List.{list_any};
ghost use Rattle.std.specs.Option.{option_to_list};
ghost use Rattle.h2_laws_log.specs.Calling.{all_entered};
ghost use Rattle.h2_model.specs.Windows.{held_data};
ghost use Rattle.h2_sender.specs.Sending.{entry_of, data_kept, dropped_of, IsGoaway, held_control, control_of, unsent_of, waits_in};

use crate::frames::data_in;
use crate::held::{Held, drop_held, held_control, held_data, held_data_of, holds, release_held};
use crate::queue::{FrameQueue, Taken};
use h2_frames::Frame;
use h2_frames::protocol::FIRST_WINDOW;
use std::alloc::{AllocError, Global};
use std::marker::Model;

/// The most bytes of DATA that are kept, so that sums stay in their types. One who hands over more is out of memory.
const MOST_DATA: u64 = 1 << 40;

#[derive(Drop)]
pub struct Sender {
    queue: FrameQueue,
    held: Vec<Held>,
    // The bytes of DATA that are held.
    held_data: u64,
    window: i64,
}

impl Model for Sender {
    ghost use Rattle.std.specs.Prelude.{◌-◌, ◌≡◌, vec_len, vec_capacity};
    ghost use Rattle.h2_model.specs.Windows.{held_data as data_among};
    ghost use Rattle.h2_sender.specs.Sending.{Sending, IsBounded};

    ghost Value = { Sending };

    ghost view = { λ s. record {
      waiting = s.queue.frames;
      held = s.held.items;
      window = s.window;
      room = s.queue.room;
      held_room = vec_capacity s.held - vec_len s.held;
    } };

    ghost invariant = { λ s. (s.held_data ≡ data_among 0 s.held.items)
        × IsBounded s.queue.frames s.held.items s.window };
}

impl Sender {
    /// The first SETTINGS wait. There is room for so many more frames, and for so many that are held.
    pub fn new(alloc: Global, client: bool, room: usize) -> Result<Sender, AllocError>
        ensures waiting { IfOk result (λ s. s.waiting ≡ (start client).waiting) }
        ensures held { IfOk result (λ s. s.held ≡ []) }
        ensures window { IfOk result (λ s. s.window ≡ pos 65535) }
        ensures room { IfOk result (λ s. room ≤ s.room) }
        ensures held_room { client ≡ true → IfOk result (λ s. room ≤ s.held_room) }
    {
        let queue = FrameQueue::new(alloc, client, room)?;
        let held = Vec::with_capacity(alloc, if client { room } else { 0 })?;
        Ok(Sender {
            queue,
            held,
            held_data: 0,
            window: i64::from(FIRST_WINDOW),
        })
    }

    /// The connection's sending window.
    pub fn window(&self) -> i64
        ensures value { result ≡ self.now.window }
        ensures low { pos 0 ≤ℤ result }
        ensures high { result ≤ℤ pos (2 ^ 41) }
    {
        self.window
    }

    /// Makes room for so many more frames, of which so many can be held.
    pub fn reserve(&mut self, frames: usize, held: usize) -> Result<(), AllocError>
        ensures waiting { self.new.waiting ≡ self.old.waiting }
        ensures held { self.new.held ≡ self.old.held }
        ensures window { self.new.window ≡ self.old.window }
        ensures ok { OnOk result ((frames ≤ self.new.room) × (held ≤ self.new.held_room)) }
        ensures kept { (self.old.room ≤ self.new.room) × (self.old.held_room ≤ self.new.held_room) }
    {
        self.queue.reserve(frames)?;
        self.held.reserve(held)
    }

    /// Whether so many more bytes of DATA can be kept.
    pub fn has_room_for(&self, bytes: u32) -> bool
        ensures { result ≡ nat_le (data_kept self.now.waiting self.now.held + bytes) (2 ^ 40) }
    {
        self.queue.data() + self.held_data + u64::from(bytes) <= MOST_DATA
    }

    /// A frame enters the queue. DATA takes its length of the window.
    pub fn enter(&mut self, frame: Frame)
        requires sendable { IsSendable frame }
        requires room { 0 < self.old.room }
        requires bound { 0 < data_in 0 frame → data_kept self.old.waiting self.old.held + data_in 0 frame ≤ 2 ^ 40 }
        requires window { 0 < data_in 0 frame → pos (data_in 0 frame) ≤ℤ self.old.window }
        ensures waiting { self.new.waiting ≡ entered frame self.old.waiting }
        ensures held { self.new.held ≡ self.old.held }
        ensures window { self.new.window ≡ self.old.window -ℤ pos (data_in 0 frame) }
        ensures capacity { self.old.room + length self.old.waiting ≤ self.new.room + length self.new.waiting }
        ensures held_capacity { self.old.held_room + length self.old.held ≤ self.new.held_room + length self.new.held }
    {
        self.window -= data_in(0, &frame) as i64;
        self.queue.enter(frame);
    }

    /// A frame waits for its stream's head. DATA takes its length of the window.
    pub fn hold(&mut self, frame: Frame, owed: bool)
        requires sendable { IsSendable frame }
        requires room { 0 < self.old.held_room }
        requires bound { 0 < data_in 0 frame → data_kept self.old.waiting self.old.held + data_in 0 frame ≤ 2 ^ 40 }
        requires window { 0 < data_in 0 frame → pos (data_in 0 frame) ≤ℤ self.old.window }
        requires handed { owed ≡ true → data_in 0 frame ≡ 0 }
        ensures waiting { self.new.waiting ≡ self.old.waiting }
        ensures held { self.new.held ≡ self.old.held ++ entry_of owed frame ∷ [] }
        ensures window { self.new.window ≡ self.old.window -ℤ pos (data_in 0 frame) }
        ensures capacity { self.old.room + length self.old.waiting ≤ self.new.room + length self.new.waiting }
        ensures held_capacity { self.old.held_room + length self.old.held ≤ self.new.held_room + length self.new.held }
    {
        let n = data_in(0, &frame);
        self.window -= n as i64;
        self.held_data += n;
        self.held.push_reserved(Held { owed, frame });
    }

    /// The peer widens the connection's window.
    pub fn widen(&mut self, n: u32)
        requires { (self.old.window +ℤ pos n) ≤ℤ pos (2 ^ 31) }
        ensures waiting { self.new.waiting ≡ self.old.waiting }
        ensures held { self.new.held ≡ self.old.held }
        ensures window { self.new.window ≡ self.old.window +ℤ pos n }
        ensures capacity { self.old.room + length self.old.waiting ≤ self.new.room + length self.new.waiting }
        ensures held_capacity { self.old.held_room + length self.old.held ≤ self.new.held_room + length self.new.held }
    {
        self.window += i64::from(n);
    }

    /// A stream is reset: its bytes that wait are dropped, and give their part of the window back.
    pub fn drop_stream(&mut self, id: u32)
        ensures waiting { self.new.waiting ≡ kept_waiting id self.old.waiting }
        ensures held { self.new.held ≡ kept_held id self.old.held }
        ensures window { self.new.window ≡ self.old.window +ℤ pos (dropped_of id self.old.waiting self.old.held) }
        ensures capacity { self.old.room + length self.old.waiting ≤ self.new.room + length self.new.waiting }
        ensures held_capacity { self.old.held_room + length self.old.held ≤ self.new.held_room + length self.new.held }
    {
        let queued = self.queue.drop_data(id);
        let before = self.held_data;
        drop_held(&mut self.held, id);
        self.held_data = held_data(self.held.as_slice());
        self.window += (queued + (before - self.held_data)) as i64;
    }

    /// The frames that were held for a stream enter the queue, the oldest first.
    pub fn release(&mut self, id: u32)
        requires { length (filter (is_of id) self.old.held) ≤ self.old.room }
        ensures waiting { self.new.waiting ≡ all_entered (filter (is_of id) self.old.held) self.old.waiting }
        ensures held { self.new.held ≡ filter (λ e. not (is_of id e)) self.old.held }
        ensures window { self.new.window ≡ self.old.window }
        ensures room { self.old.room ≤ self.new.room + length (filter (is_of id) self.old.held) }
        ensures held_capacity { self.old.held_room + length self.old.held ≤ self.new.held_room + length self.new.held }
    {
        release_held(&mut self.held, id, &mut self.queue);
        self.held_data = held_data(self.held.as_slice());
    }

    /// How many frames are held.
    pub fn held_frames(&self) -> usize
        ensures count { result ≡ length self.now.held }
        ensures bound { result ≤ 2 ^ 60 }
    {
        self.held.as_slice().len()
    }

    /// A connection error: content of which no byte was given is dropped, and so is what is held. GOAWAY goes last,
    /// behind ends that wait.
    pub fn fail(&mut self, goaway: Frame)
        requires goaway { IsGoaway goaway }
        requires room { 0 < self.old.room }
        ensures waiting { self.new.waiting
            ≡ filter (λ w. not (is_free_content w)) self.old.waiting ++ fresh goaway ∷ [] }
        ensures held { self.new.held ≡ [] }
        ensures window { self.new.window ≡ self.old.window }
        ensures capacity { self.old.room + length self.old.waiting ≤ self.new.room + length self.new.waiting }
        ensures held_capacity { self.old.held_room + length self.old.held ≤ self.new.held_room + length self.new.held }
    {
        self.queue.end(goaway);
        self.held.clear();
        self.held_data = 0;
    }

    pub fn take(&mut self, out: &mut [u8]) -> Taken
        requires { length out.old < 2 ^ 32 }
        ensures fits { result.bytes ≤ length out.old }
        ensures there { result.bytes ≤ length (flow self.old.waiting) }
        ensures bytes { out.new ≡ take result.bytes (flow self.old.waiting) ++ drop result.bytes out.old }
        ensures waiting { self.new.waiting ≡ behind result.bytes self.old.waiting }
        ensures whole { whole_within result.bytes self.old.waiting ≡ option_to_list result.whole }
        ensures some { result.bytes ≡ 0 → (out.old ≡ []) ⊎ (flow self.old.waiting ≡ []) }
        ensures held { self.new.held ≡ self.old.held }
        ensures window { self.new.window ≡ self.old.window }
        ensures capacity { self.old.room + length self.old.waiting ≤ self.new.room + length self.new.waiting }
        ensures held_capacity { self.old.held_room + length self.old.held ≤ self.new.held_room + length self.new.held }
    {
        self.queue.take(out)
    }

    /// How many bytes of frames other than DATA wait or are held, counted to 2^64 - 1.
    pub fn control(&self) -> u64
        ensures { result ≡ min (control_of self.now.waiting self.now.held) (2 ^ 64 - 1) }
    {
        self.queue
            .control()
            .saturating_add(held_control(self.held.as_slice()))
    }

    /// How many bytes of a stream's DATA weren't given.
    pub fn unsent(&self, id: u32) -> u64
        ensures { result ≡ unsent_of id self.now.waiting self.now.held }
    {
        if id == 0 {
            return 0;
        }
        self.queue.unsent(id) + held_data_of(self.held.as_slice(), id)
    }

    /// Whether a head, a byte, an end or a reset of a stream waits or is held.
    pub fn waits(&self, id: u32) -> bool
        ensures { result ≡ waits_in id self.now.waiting self.now.held }
    {
        id != 0 && (self.queue.waits(id) || holds(self.held.as_slice(), id))
    }
}
