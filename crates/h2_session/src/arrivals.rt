//! What a frame that came in does, step by step as the definitions have it.

ghost use Rattle.std.specs.Prelude.{◌≡◌, ◌<◌, ◌^◌, ◌&&◌, [], None, IfOk, IfErr, OnOk, false, true, length, map, nat_le, nat_lt, not};
ghost use Rattle.h2_laws_log.specs.Steps.{opening_by, opening_for};
ghost use Rattle.h2_laws_log.specs.Calling.{failing};
ghost use Rattle.h2_frames.specs.declared.frame.Frame.TheVariants as frame;
ghost use Rattle.h2_model.specs.Account.{Account};
ghost use Rattle.h2_model.specs.Codes.{refused_stream};
ghost use Rattle.h2_model.specs.History.{violated};
ghost use Rattle.h2_model.specs.Log.{violation};
ghost use Rattle.h2_model.specs.Moves.{adjusted, opening, owing_frame, reported, with_head};
ghost use Rattle.h2_session.specs.Accepting.{IsAccepted, IsReady, Settles};
ghost use Rattle.h2_session.specs.Arrivals.{CanOpen, Fails, IsAbove, last_of_peer, numbers_with};
ghost use Rattle.h2_session.specs.Feeding.{KeepsRole};
ghost use Rattle.h2_session.specs.Keeping.{KeepsRoom};
ghost use Rattle.h2_session.specs.Refused.{refused};
ghost use Rattle.h2_session.specs.Steps.{ending, resetting_all};
ghost use Rattle.h2_laws_kept.specs.Arriving.{Breaks, Brings, IfCode};
ghost use Rattle.h2_laws_kept.specs.Kept.{IsBeside, IsSame};
ghost use Rattle.h2_laws_kept.specs.Rooms.{HasSpare, KeepsCapacity};
ghost use Rattle.h2_laws_kept.specs.StandsFor.{Holds};
ghost use Rattle.h2_model.specs.Numbers.{has, may_have, with_number};

use crate::judging::{Whole, event_of, is_on_live};
use crate::session::Session;
use ext_msgs::FieldList;
use h2_frames::Frame;
use h2_frames::codes::REFUSED_STREAM;
use h2_frames::protocol::LAST_STREAM;
use h2_model::{Event, SessionFault};
use h2_streams::{Change, is_interim};
use std::alloc::AllocError;
use std::collections::VecDeque;

/// How many streams a peer may have open: SETTINGS_MAX_CONCURRENT_STREAMS of a server.
const MOST_STREAMS: usize = 256;

/// How many frames one that came makes owed at most: DATA two window updates and a reset.
const MOST_OWED: usize = 3;

impl Session {
    /// A frame came: what it brought, or the code of the connection error that it is.
    pub(crate) fn arrive(&mut self, frame: Frame) -> Result<Event, SessionFault>
        ensures brings { (a : Account) → Holds self.old a → violation a.log ≡ None → a.unreported ≡ [] →
            IfOk result (λ event. Brings self.new frame a event) }
        ensures breaks { (a : Account) → Holds self.old a → violation a.log ≡ None → a.unreported ≡ [] →
            IfErr result (IfCode (Breaks self.new frame a)) }
        ensures role { KeepsRole self.old self.new }
    {
        if let Some(code) = self.violation_of(&frame) {
            return Err(self.fail(code));
        }
        let whole = self.whole_block(&frame)?;
        Ok(self.accept(frame, whole)?)
    }

    // A frame that is no connection error, with the block that it ends.
    fn accept(&mut self, frame: Frame, whole: Option<Whole>) -> Result<Event, AllocError>
        ensures brings { (a : Account) → IsAccepted self.old frame whole a →
            IfOk result (λ event. Brings self.new frame a event) }
        ensures role { KeepsRole self.old self.new }
    {
        self.open_for(&frame)?;
        self.make_room(MOST_OWED)?;
        self.settle(frame, whole)
    }

    // The frame counts, what it brings is told, and what it makes due is owed.
    fn settle(&mut self, frame: Frame, whole: Option<Whole>) -> Result<Event, AllocError>
        requires { HasSpare 3 self.old }
        ensures settled { (b : Account) → IsReady self.old frame whole b →
            IfOk result (λ event. Settles self.old self.new frame whole event b) }
        ensures same { IsSame self.old self.new }
        ensures capacity { KeepsCapacity self.old self.new }
    {
        let live = is_on_live(&self.streams, &frame, &whole);
        let fault = self.stream_fault(&frame, &whole);
        let owed = self.owed_for(&frame, fault)?;
        let refused = self.refused_by(&frame)?;
        self.receive(&frame)?;
        self.end_block(&whole);
        let event = event_of(frame, whole, fault, live);
        self.tell(&event);
        self.refuse(refused);
        self.owe_all(owed);
        Ok(event)
    }

    /// A connection error: DATA that waits is dropped, and GOAWAY goes last.
    pub(crate) fn fail(&mut self, code: u32) -> SessionFault
        ensures ended { IfCode (λ told. (told ≡ code) × Fails code self.old self.new) result }
        ensures fails { (a : Account) → Holds self.old a → violation a.log ≡ None →
            IfCode (λ told. (told ≡ code) × Holds self.new (violated code a)) result }
        ensures role { KeepsRole self.old self.new }
    {
        let Ok(()) = self.make_room(1) else {
            return SessionFault::Memory;
        };
        self.go_away(code);
        SessionFault::Code(code)
    }

    // DATA that wasn't begun is dropped, and GOAWAY goes last: RFC 9113 section 5.4.1.
    fn go_away(&mut self, code: u32)
        requires { 0 < self.old.room }
        ensures state { self.new.state ≡ failing (last_of_peer self.old) code self.old.state }
        ensures same { IsSame self.old self.new }
        ensures capacity { KeepsCapacity self.old self.new }
    {
        let last = self.last_of_peer();
        self.violation = Some(code);
        self.sender.fail(Frame::GoAway(last, code));
    }

    // The highest stream that the peer opened.
    fn last_of_peer(&self) -> u32
        ensures { result ≡ last_of_peer self.now }
    {
        if self.client {
            return 0;
        }
        self.numbers.last()
    }

    // HEADERS of a client open a stream; one too many is reset at once: RFC 9113 section 5.1.2.
    fn open_for(&mut self, frame: &Frame) -> Result<(), AllocError>
        ensures state { CanOpen frame.now self.old →
            OnOk result (self.new.state ≡ opening_for (λ id. has id self.old.numbers) frame.now self.old.state) }
        ensures numbers { CanOpen frame.now self.old →
            OnOk result (self.new.numbers ≡ numbers_with frame.now self.old.numbers) }
        ensures beside { IsBeside self.old self.new }
        ensures headless { self.new.headless ≡ self.old.headless }
        ensures capacity { KeepsCapacity self.old self.new }
    {
        if let Frame::Headers(id, _, _, _) = frame {
            if self.opens(*id) {
                return self.open_stream(*id);
            }
        }
        Ok(())
    }

    // Whether HEADERS of this number open a stream.
    fn opens(&self, id: u32) -> bool
        ensures { result ≡ (not self.now.client && not (has id self.now.numbers) && may_have id self.now.numbers) }
    {
        !self.client && !self.numbers.is_opened(id) && self.numbers.can_open(id)
    }

    // The peer opens a stream.
    fn open_stream(&mut self, id: u32) -> Result<(), AllocError>
        requires server { self.old.client ≡ false }
        requires above { may_have id self.old.numbers ≡ true }
        ensures state { IsAbove id self.old.state.streams → OnOk result (self.new.state
            ≡ opening_by false (nat_le 256 (length self.old.state.streams)) id self.old.state) }
        ensures numbers { OnOk result (self.new.numbers ≡ with_number id self.old.numbers) }
        ensures beside { IsBeside self.old self.new }
        ensures headless { self.new.headless ≡ self.old.headless }
        ensures capacity { KeepsCapacity self.old self.new }
    {
        // This never comes: the number of a frame has 31 bits.
        if id > LAST_STREAM {
            return Err(AllocError);
        }
        let full = self.streams.len() >= MOST_STREAMS;
        self.add_stream(id)?;
        if full {
            self.refuse_stream(id)?;
        }
        Ok(())
    }

    // A stream that is one too many is reset.
    fn refuse_stream(&mut self, id: u32) -> Result<(), AllocError>
        requires server { self.old.client ≡ false }
        ensures state { OnOk result (self.new.state
            ≡ owing_frame false (frame.Reset id refused_stream) self.old.state) }
        ensures same { IsSame self.old self.new }
        ensures capacity { KeepsCapacity self.old self.new }
    {
        self.make_room(1)?;
        self.owe(Frame::Reset(id, REFUSED_STREAM));
        Ok(())
    }

    fn add_stream(&mut self, id: u32) -> Result<(), AllocError>
        requires number { id < 2 ^ 31 }
        requires above { may_have id self.old.numbers ≡ true }
        ensures state { IsAbove id self.old.state.streams → OnOk result (self.new.state ≡ opening id self.old.state) }
        ensures numbers { OnOk result (self.new.numbers ≡ with_number id self.old.numbers) }
        ensures beside { IsBeside self.old self.new }
        ensures headless { self.new.headless ≡ self.old.headless }
        ensures capacity { KeepsCapacity self.old self.new }
    {
        self.streams.reserve(1)?;
        self.numbers.open(id)?;
        self.streams.open(id);
        Ok(())
    }

    // A block is whole: its HEADERS may end the stream.
    fn end_block(&mut self, whole: &Option<Whole>)
        ensures state { self.new.state ≡ ending whole.now self.old.state }
        ensures same { IsSame self.old self.new }
        ensures capacity { KeepsCapacity self.old self.new }
        ensures rooms { KeepsRoom self.old self.new }
    {
        if let Some(whole) = whole {
            self.streams
                .change(whole.stream, Change::BlockCame(whole.last));
        }
    }

    // What a frame brought is told.
    fn tell(&mut self, event: &Event)
        ensures state { self.new.state ≡ reported event.now self.old.state }
        ensures same { IsSame self.old self.new }
        ensures capacity { KeepsCapacity self.old self.new }
        ensures rooms { KeepsRoom self.old self.new }
    {
        match event {
            Event::Head(id, fields, _) => self.tell_head(*id, fields),
            Event::Reset(id, _) => self.over(*id),
            _ => {}
        }
    }

    fn tell_head(&mut self, id: u32, fields: &FieldList)
        ensures state { self.new.state ≡ record self.old.state
            { streams = adjusted id (with_head fields.now) self.old.state.streams } }
        ensures same { IsSame self.old self.new }
        ensures capacity { KeepsCapacity self.old self.new }
        ensures rooms { KeepsRoom self.old self.new }
    {
        let interim = is_interim(fields);
        self.streams.change(id, Change::HeadCame(interim));
    }

    // The streams that GOAWAY refuses are over, and `feed` tells them one by one.
    fn refuse(&mut self, ids: VecDeque<u32>)
        ensures state { self.new.state ≡ record (resetting_all ids.items self.old.state)
            { unreported = map refused ids.items } }
        ensures same { IsSame self.old self.new }
        ensures capacity { KeepsCapacity self.old self.new }
        ensures rooms { KeepsRoom self.old self.new }
    {
        self.over_all(&ids);
        self.unreported = ids;
    }

    fn over_all(&mut self, ids: &VecDeque<u32>)
        ensures state { self.new.state ≡ resetting_all ids.now.items self.old.state }
        ensures same { IsSame self.old self.new }
        ensures capacity { KeepsCapacity self.old self.new }
        ensures rooms { KeepsRoom self.old self.new }
    {
        for at in 0..ids.len() {
            self.over(ids[at]);
        }
    }
}
