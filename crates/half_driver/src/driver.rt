//! A half, and what it needs to know for its calls.

ghost use Rattle.std.specs.Prelude.{◌≡◌};
ghost use Rattle.http_model.specs.Heads.{is_bodiless};
ghost use Rattle.half_machine.specs.Answering.{change_bytes};
ghost use Rattle.half_driver.specs.Driving.{size_of};

use crate::fault::DriveFault;
use ext_msgs::{Ask, BodyChange, FieldList, PartAnswer, PartModes};
use half_machine::Half;
use header_mutation::{HalfFault, HalfSetup};
use http_model::{Length, Out};
use std::alloc::Global;
use std::marker::Model;

/// A half, each of whose calls is tested for its condition first.
#[derive(Drop)]
pub struct Driver {
    half: Half,
    // The head came.
    read: bool,
    // Body bytes may come.
    unfinished: bool,
    // Asks that were handed out and not sent.
    unsent: u32,
    // Body bytes that were handed out and not given.
    waiting: u64,
    // The most bytes of an answer's body change.
    answer_limit: u32,
}

impl Model for Driver {
    ghost use Rattle.half_machine.specs.declared.half.Half.{Half};
    ghost use Rattle.half_driver.specs.Driving.{Driving};

    ghost Value = { Half };

    ghost view = { λ d. d.half };

    ghost invariant = { λ d. Driving d.half d.read d.unfinished d.unsent d.waiting d.answer_limit };
}

// The head alone says that there is no body.
fn is_bodiless(length: Length) -> bool
    ensures { result ≡ is_bodiless length }
{
    match length {
        Length::NoBody => true,
        Length::Known(n) => n == 0,
        Length::Chunked | Length::Close => false,
    }
}

// How many body bytes a part has.
fn size_of(out: &Out) -> u64
    ensures { result ≡ size_of out.now }
{
    match out {
        Out::Data(bytes) => bytes.len() as u64,
        Out::Head(_, _) | Out::Trailers(_) | Out::End | Out::Nothing => 0,
    }
}

// The bytes of a body change, where it has some.
fn change_bytes(change: &BodyChange) -> &[u8]
    ensures { result.now ≡ change_bytes change.now }
{
    match change {
        BodyChange::Bytes(bytes) | BodyChange::Streamed(bytes, _) => bytes.bytes(),
        BodyChange::Absent | BodyChange::Clear(_) => b"".as_slice(),
    }
}

impl Driver {
    /// A half that was told nothing.
    pub fn new(alloc: Global, setup: HalfSetup) -> Result<Driver, DriveFault> {
        if setup.buffer_limit < 1 || setup.buffer_limit > 1_048_576 {
            return Err(DriveFault::NotNow);
        }
        if setup.answer_limit < 1_024 || setup.answer_limit > 2_097_152 {
            return Err(DriveFault::NotNow);
        }
        let answer_limit = setup.answer_limit;
        let half = Half::new(alloc, setup)?;
        Ok(Driver {
            half,
            read: false,
            unfinished: false,
            unsent: 0,
            waiting: 0,
            answer_limit,
        })
    }

    /// Other modes, before the head.
    pub fn settle(&mut self, modes: PartModes) -> Result<(), DriveFault> {
        if self.read {
            return Err(DriveFault::NotNow);
        }
        self.half.settle(modes);
        Ok(())
    }

    /// Its head, once.
    pub fn head(&mut self, fields: FieldList, length: Length) -> Result<(), DriveFault> {
        if self.read {
            return Err(DriveFault::NotNow);
        }
        self.half.head(fields, length);
        self.read = true;
        self.unfinished = !is_bodiless(length);
        Ok(())
    }

    /// Body bytes, as many as there is room for.
    pub fn data(&mut self, bytes: &[u8]) -> Result<(), DriveFault> {
        if !self.unfinished || bytes.len() > self.half.room() as usize {
            return Err(DriveFault::NotNow);
        }
        self.half.data(bytes);
        Ok(())
    }

    /// The last body bytes, and the trailers.
    pub fn end(&mut self, bytes: &[u8], trailers: FieldList) -> Result<(), DriveFault> {
        if !self.unfinished || bytes.len() > self.half.room() as usize {
            return Err(DriveFault::NotNow);
        }
        self.half.end(bytes, trailers);
        self.unfinished = false;
        Ok(())
    }

    /// An answer to the oldest ask out: why it is refused, where it is.
    pub fn answer(&mut self, answer: &PartAnswer) -> Result<Option<HalfFault>, DriveFault> {
        if change_bytes(&answer.common.body).len() > self.answer_limit as usize {
            return Err(DriveFault::NotNow);
        }
        match self.half.answer(answer) {
            Ok(()) => Ok(None),
            Err(HalfFault::Memory) => Err(DriveFault::Memory),
            Err(fault) => Ok(Some(fault)),
        }
    }

    /// The rest passes.
    pub fn release(&mut self) {
        self.half.release();
    }

    /// The next ask that is handed out.
    pub fn next_ask(&mut self) -> Result<Option<Ask>, DriveFault> {
        let Some(ask) = self.half.next_ask()? else {
            return Ok(None);
        };
        self.unsent = self.unsent.saturating_add(1);
        Ok(Some(ask))
    }

    /// One of those that were handed out was sent.
    pub fn sent(&mut self) -> Result<(), DriveFault> {
        if self.unsent == 0 {
            return Err(DriveFault::NotNow);
        }
        self.half.sent();
        self.unsent -= 1;
        Ok(())
    }

    /// The next part of the message that goes out.
    pub fn next_out(&mut self, max: u32) -> Result<Out, DriveFault> {
        if max == 0 {
            return Err(DriveFault::NotNow);
        }
        let out = self.half.next_out(max)?;
        self.waiting = self.waiting.saturating_add(size_of(&out));
        Ok(out)
    }

    /// So many of the body bytes that were handed out were given.
    pub fn given(&mut self, n: u32) -> Result<(), DriveFault> {
        let size = u64::from(n);
        if size > self.waiting {
            return Err(DriveFault::NotNow);
        }
        self.half.given(n);
        self.waiting -= size;
        Ok(())
    }

    /// How many body bytes may come.
    pub fn room(&self) -> u32 {
        self.half.room()
    }

    /// Whether the body is longer than its limit.
    pub fn over_limit(&self) -> bool {
        self.half.over_limit()
    }

    /// How many asks are out.
    pub fn asks_out(&self) -> u32 {
        self.half.asks_out()
    }

    /// How many body bytes are kept.
    pub fn held(&self) -> u64 {
        self.half.held()
    }
}
