//! The body of a message, in any cut: RFC 9112 sections 6 and 7.

ghost use Rattle.std.specs.Prelude.{◌≡◌, ◌<◌, ◌^◌, [], length, IfOk};
ghost use Rattle.h1_read.specs.Stages.{rest_of, IsAt};
ghost use Rattle.h1_read.specs.Remaining.{at_start, Continues, AtEnd, kept_bytes};

use crate::body_stage::{Fed, Stage, Stop};
use crate::body_steps::step;
use crate::chunk_line::ChunkPlace;
use crate::fault::H1Fault;
use crate::piece::Piece;
use http_model::Length;
use std::alloc::{AllocError, Global};
use std::marker::Model;

fn first_stage(length: Length) -> Stage
    ensures rest { rest_of result [] ≡ at_start length }
    ensures at { IsAt result [] }
{
    match length {
        Length::NoBody => Stage::Over,
        Length::Known(n) => Stage::Known(n),
        Length::Chunked => Stage::Line(ChunkPlace::Size(0)),
        Length::Close => Stage::Close,
    }
}

/// Reads the body behind a head. Contracts see what it has still to read.
#[derive(Drop)]
pub struct BodyReader {
    alloc: Global,
    stage: Stage,
    kept: Vec<u8>,
}

impl Model for BodyReader {
    ghost use Rattle.h1_read.specs.Remaining.{Rest, IsBegun};
    ghost use Rattle.h1_read.specs.Stages.{rest_of, IsAt};

    ghost Value = { Rest };

    ghost view = { λ r. rest_of r.stage r.kept.items };

    ghost invariant = { λ r. IsBegun (rest_of r.stage r.kept.items) × IsAt r.stage r.kept.items };
}

impl BodyReader {
    /// Before a body of this length.
    pub fn new(alloc: Global, length: Length) -> Result<BodyReader, AllocError>
        ensures { IfOk result (λ r. r ≡ at_start length) }
    {
        Ok(BodyReader {
            alloc,
            stage: first_stage(length),
            kept: Vec::new(alloc),
        })
    }

    /// What these bytes, which stand behind those before, give: one piece of the body or its end, and how many of
    /// them were used for it. Bytes that weren't used are fed again. Behind the end every call gives it again,
    /// without trailers; behind a fault every call answers that fault; out of memory leaves the reader as it was.
    pub fn feed(&mut self, bytes: &[u8]) -> Result<(Piece, u32), H1Fault>
        requires { length bytes.now < 2 ^ 32 }
        ensures { Continues self.old bytes.now self.new result }
    {
        match step(self.alloc, self.stage, &mut self.kept, bytes) {
            Ok(fed) => {
                let Fed { stage, piece, used } = fed;
                self.stage = stage;
                Ok((piece, used as u32))
            }
            Err(Stop::Bad) => {
                self.stage = Stage::Bad;
                Err(H1Fault::BadChunk)
            }
            Err(Stop::Long) => {
                self.stage = Stage::Long;
                Err(H1Fault::LongHead)
            }
            Err(Stop::Memory) => Err(H1Fault::Memory),
        }
    }

    /// The bytes are ended: `CutShort` where the body isn't whole, or the fault that it has.
    pub fn end(&self) -> Result<(), H1Fault>
        ensures { AtEnd self.now result }
    {
        match self.stage {
            Stage::Known(0) => Ok(()),
            Stage::Known(_) => Err(H1Fault::CutShort),
            Stage::Line(_) => Err(H1Fault::CutShort),
            Stage::Chunk(_) => Err(H1Fault::CutShort),
            Stage::Lf => Err(H1Fault::CutShort),
            Stage::Trailers(_) => Err(H1Fault::CutShort),
            Stage::Close => Ok(()),
            Stage::Over => Ok(()),
            Stage::Bad => Err(H1Fault::BadChunk),
            Stage::Long => Err(H1Fault::LongHead),
        }
    }

    /// The same reader once more.
    pub fn copy(&self) -> Result<BodyReader, AllocError>
        ensures { IfOk result (λ r. r ≡ self.now) }
    {
        let kept = self.kept.clone()?;
        Ok(BodyReader {
            alloc: self.alloc,
            stage: self.stage,
            kept,
        })
    }

    /// How many bytes it keeps: fewer than a trailer section may take.
    pub fn held(&self) -> u64
        ensures value { result ≡ length (kept_bytes self.now) }
        ensures bound { result < 32768 }
    {
        match self.stage {
            Stage::Line(_) => self.kept.len() as u64,
            Stage::Trailers(_) => self.kept.len() as u64,
            _ => 0,
        }
    }
}
