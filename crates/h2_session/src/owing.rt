//! The frames that are owed for one that came in.

ghost use Rattle.std.specs.Prelude.{◌≡◌, ◌≤◌, ◌<◌, ◌+◌, ◌-◌, true, length, All};
ghost use Rattle.h2_frames.specs.declared.frame.Frame.TheVariants as frame;
ghost use Rattle.h2_model.specs.Log.{stream_of};
ghost use Rattle.h2_model.specs.Moves.{adjusted, charged, owing_frame, with_update};
ghost use Rattle.h2_laws_log.specs.Steps.{owing_frames};
ghost use Rattle.h2_session.specs.Steps.{IsOwed};
ghost use Rattle.h2_laws_kept.specs.Kept.{IsSame, lacks_head};
ghost use Rattle.h2_laws_kept.specs.Rooms.{KeepsCapacity};

use crate::session::Session;
use h2_frames::Frame;
use h2_streams::Change;
use std::collections::VecDeque;

// The stream of a frame that is owed; 0 is the connection.
fn stream_of(frame: &Frame) -> u32
    ensures { result ≡ stream_of frame.now }
{
    match frame {
        Frame::Data(id, _, _, _)
        | Frame::Headers(id, _, _, _)
        | Frame::Reset(id, _)
        | Frame::Window(id, _) => *id,
        _ => 0,
    }
}

impl Session {
    /// Frames are owed, in order.
    pub(crate) fn owe_all(&mut self, mut owed: VecDeque<Frame>)
        requires owed { All IsOwed owed.items }
        requires room { length owed.items ≤ self.old.room }
        requires held { self.old.client ≡ true → length owed.items ≤ self.old.held_room }
        ensures state { self.new.state ≡ owing_frames (λ id. lacks_head id self.old) owed.items self.old.state }
        ensures same { IsSame self.old self.new }
        ensures capacity { KeepsCapacity self.old self.new }
    {
        let Some(frame) = owed.pop_front() else {
            return;
        };
        self.owe(frame);
        self.owe_all(owed);
    }

    /// A frame is owed: it enters the queue, or is held while its stream's head is awaited.
    pub(crate) fn owe(&mut self, frame: Frame)
        requires owed { IsOwed frame }
        requires room { 0 < self.old.room }
        requires held { self.old.client ≡ true → 0 < self.old.held_room }
        ensures state { self.new.state ≡ owing_frame (lacks_head (stream_of frame) self.old) frame self.old.state }
        ensures same { IsSame self.old self.new }
        ensures capacity { KeepsCapacity self.old self.new }
        ensures room { self.old.room ≤ 1 + self.new.room }
        ensures held { self.old.held_room ≤ 1 + self.new.held_room }
    {
        if self.is_headless(stream_of(&frame)) {
            self.sender.hold(frame, true);
            return;
        }
        self.charge(&frame);
        self.sender.enter(frame);
    }

    // What is owed on a stream whose head was handed over counts at once.
    fn charge(&mut self, frame: &Frame)
        ensures state { self.new.state ≡ charged frame.now self.old.state }
        ensures same { IsSame self.old self.new }
        ensures capacity { KeepsCapacity self.old self.new }
        ensures room { self.old.room ≤ self.new.room }
        ensures held { self.old.held_room ≤ self.new.held_room }
    {
        match frame {
            Frame::Window(id, n) => self.give_back(*id, *n),
            Frame::Reset(id, _) => self.over(*id),
            _ => {}
        }
    }

    // A window update gives the bytes back that came.
    fn give_back(&mut self, id: u32, n: u32)
        ensures state { self.new.state ≡ charged (frame.Window id n) self.old.state }
        ensures same { IsSame self.old self.new }
        ensures capacity { KeepsCapacity self.old self.new }
        ensures room { self.new.room ≡ self.old.room }
        ensures held { self.new.held_room ≡ self.old.held_room }
    {
        if id != 0 {
            self.give_back_on(id, n);
            return;
        }
        self.unreturned = self.unreturned.saturating_sub(n);
    }

    fn give_back_on(&mut self, id: u32, n: u32)
        ensures state { self.new.state ≡ record self.old.state
            { streams = adjusted id (with_update n) self.old.state.streams } }
        ensures same { IsSame self.old self.new }
        ensures capacity { KeepsCapacity self.old self.new }
        ensures room { self.new.room ≡ self.old.room }
        ensures held { self.new.held_room ≡ self.old.held_room }
    {
        self.streams.change(id, Change::UpdateOwed(n));
    }
}
