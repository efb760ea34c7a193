//! The queue of a session's outgoing frames.

ghost use Rattle.std.specs.Prelude.{◌≡◌, ◌≤◌, ◌<◌, ◌+◌, ◌-◌, ◌^◌, ◌++◌, ◌⊎◌, [], length, take, drop, min, not, filter, IfOk, OnOk, OnErr, false, ◌∷◌};
ghost use Rattle.std.specs.List.{list_any};
ghost use Rattle.std.specs.Option.{option_to_list};
ghost use Rattle.h2_model.specs.History.{start, own_settings};
ghost use Rattle.h2_model.specs.Moves.{kept_waiting};
ghost use Rattle.h2_model.specs.Queue.{is_data, is_free_content, fresh, flow, behind, whole_within, queued, unsent, control_bytes, data_in, entered};
ghost use Rattle.h2_sender.specs.Outgoing.{IsSendable};
ghost use Rattle.h2_sender.specs.Queue.{waits_for};

use crate::frames::data_in;
use crate::outgoing::Outgoing;
use crate::places::{front_of, make_ready, place};
use crate::shares::{Share, bytes_of, count, frames_of, recount, uncount};
use crate::sums;
use h2_frames::protocol::{ENABLE_PUSH, MAX_CONCURRENT_STREAMS};
use h2_frames::{Frame, Setting, SettingList};
use std::alloc::{AllocError, Global};
use std::collections::VecDeque;
use std::marker::Model;

/// What a call of `take` gave: how many bytes, and the frame whose last byte was among them.
#[derive(Drop)]
pub struct Taken {
    pub bytes: u32,
    pub whole: Option<Frame>,
}

/// Frames that wait to go out, in their order. Only `new` and `reserve` take memory. The content of DATA is moved in
/// with its frame, and copied once, by `take`.
#[derive(Drop)]
pub struct FrameQueue {
    frames: VecDeque<Outgoing>,
    // The bytes of all DATA, those of a begun frame among them.
    data: u64,
    // The bytes of the other frames that weren't given, counted to 2^64 - 1.
    control: u64,
    // So many frames stand before the first DATA that others may pass.
    front: usize,
    // What waits of each stream, by their numbers.
    shares: VecDeque<Share>,
    // There is room for so many frames, and for the shares of as many streams.
    most: usize,
}

impl Model for FrameQueue {
    ghost use Rattle.std.specs.Prelude.{◌-◌};
    ghost use Rattle.std.specs.VecDeque.{deque_len, deque_capacity};
    ghost use Rattle.h2_sender.specs.Queue.{Queue, IsCounted, IsReserved};
    ghost use Rattle.h2_sender.specs.Shares.{AreShared};

    ghost Value = { Queue };

    ghost view = { λ q. record { frames = q.frames.items; room = q.most - deque_len q.frames } };

    ghost invariant = { λ q. IsCounted q.frames.items q.«data» q.control q.front
        × AreShared q.frames.items q.shares.items
        × IsReserved q.most (deque_len q.frames) (deque_capacity q.frames) (deque_capacity q.shares) };
}

// The bytes of frames other than DATA once so many of them were given, counted to 2^64 - 1: a count that reached that
// bound isn't their sum, so it is made anew.
fn control_behind(frames: &VecDeque<Outgoing>, before: u64, given: u64) -> u64
    requires { before ≡ min (control_bytes frames.now.items + given) (2 ^ 64 - 1) }
    ensures { result ≡ min (control_bytes frames.now.items) (2 ^ 64 - 1) }
{
    if before == u64::MAX {
        return sums::control(frames);
    }
    before - given
}

// A client disables push; a server allows 256 streams: RFC 9113 section 6.5.2.
fn own_settings(alloc: Global, client: bool) -> Result<Frame, AllocError>
    ensures { IfOk result (λ f. f ≡ own_settings client) }
{
    let mut list = SettingList::new(alloc);
    if client {
        list.push(Setting {
            identifier: ENABLE_PUSH,
            value: 0,
        })?;
    } else {
        list.push(Setting {
            identifier: MAX_CONCURRENT_STREAMS,
            value: 256,
        })?;
    }
    Ok(Frame::Settings(list))
}

impl FrameQueue {
    /// A queue of the first SETTINGS, behind the preface for a client, with room for so many more frames. Fails where
    /// memory runs out.
    pub fn new(alloc: Global, client: bool, room: usize) -> Result<FrameQueue, AllocError>
        ensures frames { IfOk result (λ q. q.frames ≡ (start client).waiting) }
        ensures room { IfOk result (λ q. room ≤ q.room) }
    {
        let settings = own_settings(alloc, client)?;
        let most = room.saturating_add(1);
        let mut frames = VecDeque::with_capacity(alloc, most)?;
        let mut shares = VecDeque::with_capacity(alloc, most)?;
        frames.push_back_reserved(Outgoing::first(settings, client));
        recount(&mut shares, &frames);
        let control = sums::control(&frames);
        let front = front_of(&frames, 0);
        Ok(FrameQueue {
            frames,
            data: 0,
            control,
            front,
            shares,
            most,
        })
    }

    /// Makes room for so many more frames. Out of memory the queue stays as it was.
    pub fn reserve(&mut self, n: usize) -> Result<(), AllocError>
        ensures frames { self.new.frames ≡ self.old.frames }
        ensures room { OnOk result (n ≤ self.new.room) }
        ensures kept { self.old.room ≤ self.new.room }
    {
        self.frames.reserve(n)?;
        let most = self.frames.len() + n;
        self.shares.reserve(most.saturating_sub(self.shares.len()))?;
        self.most = self.most.max(most);
        Ok(())
    }

    /// A frame enters at its place: DATA and an acknowledgement at the end, and another frame before DATA that it
    /// needn't stay behind. It stays behind what is of its stream where one of the two is a field block or it is a
    /// reset, and blocks stay in their order and behind acknowledgements. A payload has at most 16,384 bytes, and a
    /// block, which is cut as it is given, any length. All DATA together has at most 2^40 bytes.
    pub fn enter(&mut self, frame: Frame)
        requires sendable { IsSendable frame }
        requires room { 0 < self.old.room }
        requires bound { queued 0 self.old.frames + data_in 0 frame ≤ 2 ^ 40 }
        ensures frames { self.new.frames ≡ entered frame self.old.frames }
        ensures room { self.old.room ≤ self.new.room + 1 }
        ensures capacity { self.old.room + length self.old.frames ≤ self.new.room + length self.new.frames }
    {
        let added = data_in(0, &frame);
        let front = make_ready(&mut self.frames, self.front, &frame);
        let new = Outgoing::fresh(frame);
        self.control = self.control.saturating_add(new.control());
        count(&mut self.shares, &new);
        self.front = place(&mut self.frames, front, new);
        self.data += added;
    }

    /// Drops the DATA of a stream that wasn't begun, but for its end, and tells how many bytes it had.
    pub fn drop_data(&mut self, stream: u32) -> u64
        ensures frames { self.new.frames ≡ kept_waiting stream self.old.frames }
        ensures dropped { result ≡ queued 0 self.old.frames - queued 0 self.new.frames }
        ensures capacity { self.old.room + length self.old.frames ≤ self.new.room + length self.new.frames }
    {
        if bytes_of(&self.shares, stream) == 0 {
            return 0;
        }
        let before = self.data;
        self.frames.retain(|w| !w.is_dropped(stream));
        recount(&mut self.shares, &self.frames);
        self.data = sums::queued(&self.frames, 0);
        self.front = front_of(&self.frames, self.front);
        before - self.data
    }

    /// Drops all content that other frames may pass, and puts a frame that is no DATA behind all that is left.
    pub fn end(&mut self, last: Frame)
        requires sendable { IsSendable last }
        requires control { is_data last ≡ false }
        requires room { 0 < self.old.room }
        ensures frames { self.new.frames
            ≡ filter (λ w. not (is_free_content w)) self.old.frames ++ fresh last ∷ [] }
        ensures capacity { self.old.room + length self.old.frames ≤ self.new.room + length self.new.frames }
    {
        self.frames.retain(|w| !w.is_free_content());
        let new = Outgoing::fresh(last);
        self.control = self.control.saturating_add(new.control());
        self.frames.push_back_reserved(new);
        recount(&mut self.shares, &self.frames);
        self.data = sums::queued(&self.frames, 0);
        self.front = front_of(&self.frames, self.front);
    }

    /// Gives the next bytes, those of the first frame that fit.
    pub fn take(&mut self, out: &mut [u8]) -> Taken
        requires { length out.old < 2 ^ 32 }
        ensures fits { result.bytes ≤ length out.old }
        ensures there { result.bytes ≤ length (flow self.old.frames) }
        ensures bytes { out.new ≡ take result.bytes (flow self.old.frames) ++ drop result.bytes out.old }
        ensures frames { self.new.frames ≡ behind result.bytes self.old.frames }
        ensures whole { whole_within result.bytes self.old.frames ≡ option_to_list result.whole }
        ensures some { result.bytes ≡ 0 → (out.old ≡ []) ⊎ (flow self.old.frames ≡ []) }
        ensures capacity { self.old.room + length self.old.frames ≤ self.new.room + length self.new.frames }
    {
        let frames = &mut self.frames;
        if out.is_empty() {
            return Taken {
                bytes: 0,
                whole: None,
            };
        }
        let Some(mut first) = frames.pop_front() else {
            return Taken {
                bytes: 0,
                whole: None,
            };
        };
        let (control, unsent) = (first.control(), first.unsent(0));
        let bytes = first.give(out) as u32;
        let given = control - first.control();
        let whole = first.left() == 0;
        uncount(&mut self.shares, &first, whole, unsent - first.unsent(0));
        if !whole {
            frames.push_front_reserved(first);
            self.control = control_behind(&self.frames, self.control, given);
            self.front = front_of(&self.frames, self.front);
            return Taken { bytes, whole: None };
        }
        self.data -= first.data(0);
        self.control = control_behind(&self.frames, self.control, given);
        self.front = front_of(&self.frames, self.front.saturating_sub(1));
        Taken {
            bytes,
            whole: Some(first.into_frame()),
        }
    }

    /// How many bytes of DATA wait, those of a begun frame among them.
    pub fn data(&self) -> u64
        ensures count { result ≡ queued 0 self.now.frames }
        ensures bound { result ≤ 2 ^ 40 }
    {
        self.data
    }

    /// How many bytes of DATA for a stream weren't given.
    pub fn unsent(&self, stream: u32) -> u64
        requires { 0 < stream }
        ensures count { result ≡ unsent stream self.now.frames }
        ensures bound { result ≤ 2 ^ 40 }
    {
        bytes_of(&self.shares, stream)
    }

    /// How many bytes wait that are no part of DATA, counted to 2^64 - 1.
    pub fn control(&self) -> u64
        ensures { result ≡ min (control_bytes self.now.frames) (2 ^ 64 - 1) }
    {
        self.control
    }

    /// Whether a frame of a stream waits that is no window update.
    pub fn waits(&self, stream: u32) -> bool
        ensures { result ≡ list_any (waits_for stream) self.now.frames }
    {
        frames_of(&self.shares, stream) > 0
    }
}
