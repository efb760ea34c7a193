//! A frame that came counts: windows, settings and field blocks.

ghost use Rattle.std.specs.Prelude.{◌≡◌, ◌≤◌, ◌<◌, ◌+◌, ◌-◌, ◌==◌, ◌^◌, ◌||◌, true, false, None, Some, OnOk, pos, ◌+ℤ◌, ◌≤ℤ◌, if◌then◌else◌};
ghost use Rattle.h2_frames.specs.declared.frame.Frame.TheVariants as frame;
ghost use Rattle.h2_model.specs.State.{found};
ghost use Rattle.h2_model.specs.Blocks.{more_of};
ghost use Rattle.h2_model.specs.Moves.{adjusted, receiving, resetting, with_data, with_increment};
ghost use Rattle.h2_model.specs.Settings.{least_in, setting_in};
ghost use Rattle.h2_model.specs.declared.stream.Stream.{Stream};
ghost use Rattle.h2_session.specs.Keeping.{KeepsRoom};
ghost use Rattle.h2_session.specs.Steps.{CanCount, CanTake, IsAbsorbed};
ghost use Rattle.h2_laws_kept.specs.Kept.{IsSame};
ghost use Rattle.h2_laws_kept.specs.Rooms.{KeepsCapacity};
ghost use Rattle.h2_streams.specs.Changes.{Allows};
ghost use Rattle.h2_streams.specs.declared.changes.Change.TheVariants.{IncrementCame};

use crate::session::Session;
use h2_frames::protocol::{
    HEADER_TABLE_SIZE, INITIAL_WINDOW_SIZE, MAX_CONCURRENT_STREAMS, WIDEST_WINDOW,
};
use h2_frames::{Frame, Setting};
use h2_streams::{Change, PartialBlock, StreamTable};
use hpack_core::Encoder;
use std::alloc::AllocError;

// Whether the credit of a stream can take an increment.
fn fits_credit(streams: &StreamTable, id: u32, n: u32) -> bool
    ensures fits { result ≡ true → (t : Stream) → found id streams.now.streams ≡ Some t → Allows (IncrementCame n) t }
    ensures wide { ((t : Stream) → found id streams.now.streams ≡ Some t → Allows (IncrementCame n) t) → result ≡ true }
{
    match streams.get(id) {
        Some(stream) => stream.credit + i64::from(n) <= 1 << 33,
        None => true,
    }
}

// The last value of a setting.
fn setting_in(list: &[Setting], identifier: u16, before: u32) -> u32
    ensures { result ≡ setting_in identifier list.now before }
{
    let mut value = before;
    for setting in list {
        if setting.identifier == identifier {
            value = setting.value;
        }
    }
    value
}

// The encoder's table takes no more than the least size that came.
fn limit_table(encoder: &mut Encoder, list: &[Setting])
    ensures limit { encoder.new.limit ≡ least_in list.now encoder.old.limit }
    ensures table { encoder.new.table ≡ encoder.old.table }
{
    for setting in list {
        if setting.identifier == HEADER_TABLE_SIZE {
            encoder.set_limit(setting.value);
        }
    }
}

impl Session {
    /// The frame counts, and settings are applied.
    pub(crate) fn receive(&mut self, frame: &Frame) -> Result<(), AllocError>
        ensures state { CanCount frame.now self.old.state → CanTake frame.now self.old.state →
            OnOk result (self.new.state ≡ receiving frame.now self.old.state) }
        ensures faulty { OnOk result (IsAbsorbed frame.now self.old.state self.new.state) }
        ensures same { IsSame self.old self.new }
        ensures capacity { KeepsCapacity self.old self.new }
        ensures rooms { KeepsRoom self.old self.new }
    {
        self.begin();
        self.count(frame)
    }

    // A frame came.
    fn begin(&mut self)
        ensures state { self.new.state ≡ record self.old.state { first = false } }
        ensures same { IsSame self.old self.new }
        ensures capacity { KeepsCapacity self.old self.new }
        ensures rooms { KeepsRoom self.old self.new }
    {
        self.first = false;
    }

    fn start_ending(&mut self)
        ensures state { self.new.state ≡ record self.old.state { goaway = true } }
        ensures same { IsSame self.old self.new }
        ensures capacity { KeepsCapacity self.old self.new }
        ensures rooms { KeepsRoom self.old self.new }
    {
        self.goaway = true;
    }

    fn count(&mut self, frame: &Frame) -> Result<(), AllocError>
        requires { self.old.state.first ≡ false }
        ensures state { CanCount frame.now self.old.state → CanTake frame.now self.old.state →
            OnOk result (self.new.state ≡ receiving frame.now self.old.state) }
        ensures faulty { OnOk result (IsAbsorbed frame.now self.old.state self.new.state) }
        ensures same { IsSame self.old self.new }
        ensures capacity { KeepsCapacity self.old self.new }
        ensures rooms { KeepsRoom self.old self.new }
    {
        match frame {
            Frame::Data(id, _, last, size) => self.take_data(*id, *last, *size),
            Frame::Headers(id, part, last, ends) => {
                return self.begin_block(*id, part.bytes(), *last, *ends);
            }
            Frame::Continuation(_, part, ends) => {
                return self.continue_block(part.bytes(), *ends);
            }
            Frame::Settings(list) => self.apply(list.as_slice()),
            Frame::Window(id, n) => self.take_increment(*id, *n),
            Frame::GoAway(_, _) => self.start_ending(),
            _ => {}
        }
        Ok(())
    }

    fn take_data(&mut self, id: u32, last: bool, size: u32)
        ensures state { self.old.state.unreturned + size < 2 ^ 32 →
            ((t : Stream) → found id self.old.state.streams ≡ Some t → t.unreturned + size < 2 ^ 32) →
            self.new.state ≡ record self.old.state {
              receive = self.old.state.receive - size;
              unreturned = self.old.state.unreturned + size;
              streams = adjusted id (with_data last size) self.old.state.streams;
            } }
        ensures same { IsSame self.old self.new }
        ensures capacity { KeepsCapacity self.old self.new }
        ensures rooms { KeepsRoom self.old self.new }
    {
        self.receive = self.receive.saturating_sub(size);
        self.unreturned = self.unreturned.saturating_add(size);
        self.streams.change(id, Change::DataCame(last, size));
    }

    fn begin_block(
        &mut self,
        id: u32,
        part: &[u8],
        last: bool,
        ends: bool,
    ) -> Result<(), AllocError>
        ensures state { OnOk result (self.new.state ≡ record self.old.state {
          block = if ends then None else Some (record { stream = id; bytes = part.now; last = last });
        }) }
        ensures same { IsSame self.old self.new }
        ensures capacity { KeepsCapacity self.old self.new }
        ensures rooms { KeepsRoom self.old self.new }
    {
        if ends {
            self.block = None;
            return Ok(());
        }
        let bytes = part.to_vec(self.alloc)?;
        self.block = Some(PartialBlock {
            stream: id,
            bytes,
            last,
        });
        Ok(())
    }

    fn continue_block(&mut self, part: &[u8], ends: bool) -> Result<(), AllocError>
        ensures state { OnOk result (self.new.state ≡ record self.old.state {
          block = if ends then None else more_of part.now self.old.state.block;
        }) }
        ensures same { IsSame self.old self.new }
        ensures capacity { KeepsCapacity self.old self.new }
        ensures rooms { KeepsRoom self.old self.new }
    {
        let block = self.block.take();
        if ends {
            return Ok(());
        }
        let Some(mut block) = block else {
            return Ok(());
        };
        block.bytes.extend_from_slice(part)?;
        self.block = Some(block);
        Ok(())
    }

    fn apply(&mut self, list: &[Setting])
        ensures state { self.new.state ≡ record self.old.state {
          initial = setting_in 4 list.now self.old.state.initial;
          most = setting_in 3 list.now self.old.state.most;
          limit = least_in list.now self.old.state.limit;
        } }
        ensures same { IsSame self.old self.new }
        ensures capacity { KeepsCapacity self.old self.new }
        ensures rooms { KeepsRoom self.old self.new }
    {
        self.initial = setting_in(list, INITIAL_WINDOW_SIZE, self.initial);
        self.most = setting_in(list, MAX_CONCURRENT_STREAMS, self.most);
        limit_table(&mut self.encoder, list);
    }

    fn take_increment(&mut self, id: u32, n: u32)
        requires { self.old.state.first ≡ false }
        ensures state { CanTake (frame.Window id n) self.old.state →
            self.new.state ≡ receiving (frame.Window id n) self.old.state }
        ensures faulty { IsAbsorbed (frame.Window id n) self.old.state self.new.state }
        ensures same { IsSame self.old self.new }
        ensures capacity { KeepsCapacity self.old self.new }
        ensures rooms { KeepsRoom self.old self.new }
    {
        if id == 0 {
            self.widen_connection(n);
        } else {
            self.widen_stream(id, n);
        }
    }

    // An increment that is a connection error isn't applied.
    fn widen_connection(&mut self, n: u32)
        ensures state { (self.old.state.window +ℤ pos n) ≤ℤ pos 2147483647 →
            self.new.state ≡ record self.old.state { window = self.old.state.window +ℤ pos n } }
        ensures same { IsSame self.old self.new }
        ensures capacity { KeepsCapacity self.old self.new }
        ensures rooms { KeepsRoom self.old self.new }
    {
        if self.sender.window() + i64::from(n) <= WIDEST_WINDOW {
            self.sender.widen(n);
        }
    }

    // An increment that is a stream error may be too much for the credit.
    fn widen_stream(&mut self, id: u32, n: u32)
        ensures state { ((t : Stream) → found id self.old.state.streams ≡ Some t → Allows (IncrementCame n) t) →
            self.new.state ≡ record self.old.state { streams = adjusted id (with_increment n) self.old.state.streams } }
        ensures faulty { resetting id self.new.state
            ≡ resetting id (record self.old.state { streams = adjusted id (with_increment n) self.old.state.streams }) }
        ensures same { IsSame self.old self.new }
        ensures capacity { KeepsCapacity self.old self.new }
        ensures rooms { KeepsRoom self.old self.new }
    {
        if fits_credit(&self.streams, id, n) {
            self.streams.change(id, Change::IncrementCame(n));
        }
    }
}
