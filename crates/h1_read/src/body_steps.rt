//! What the stages make of bytes.

ghost use Rattle.std.specs.Prelude.{◌≡◌, ◌+◌, ◌≤◌, ◌<◌, ◌^◌, [], length};
ghost use Rattle.http_model.specs.Lines.{chunk_line};
ghost use Rattle.h1_read.specs.Sections.{trailer_section};
ghost use Rattle.http_model.specs.Reading.{Partial};
ghost use Rattle.h1_read.specs.Remaining as rest;
ghost use Rattle.h1_read.specs.Remaining.{Rest, GivesContent, IsBegun};
ghost use Rattle.h1_read.specs.Stages.{rest_of, Feeds, KeepsNone, BodySteps, KeepsBegun, IsAt, OnMemory, StartsWithin, shifted};
ghost use Rattle.h1_read.specs.declared.body_stage.Stage.TheVariants as stage;

use crate::body_stage::{ChunkEnd, Fed, Stage, Stop, end_of_chunk};
use crate::chunk_line::{ChunkPlace, ChunkScan, SizeLine, chunk_place, keep_line_until, next_over};
use crate::piece::Piece;
use crate::place::{Place, Scan, next_stop, section_place};
use crate::section::{SectionRead, read_section};
use crate::trailers::keep_section;
use ext_msgs::FieldList;
use std::alloc::Global;

// The same, of bytes that stand behind so many others.
fn behind(at: usize, fed: Fed) -> Fed
    requires order { StartsWithin fed.piece fed.used }
    requires fits { at + fed.used < 2 ^ 32 }
    ensures { result ≡ shifted at fed }
{
    let Fed { stage, piece, used } = fed;
    let used = at + used;
    match piece {
        Piece::More => Fed {
            stage,
            piece: Piece::More,
            used,
        },
        Piece::Data(start, len) => Fed {
            stage,
            piece: Piece::Data(at as u32 + start, len),
            used,
        },
        Piece::End(trailers) => Fed {
            stage,
            piece: Piece::End(trailers),
            used,
        },
    }
}

/// Bytes of a body of known length.
pub(crate) fn known(alloc: Global, left: u64, bytes: &[u8]) -> Fed
    requires { length bytes.now < 2 ^ 32 }
    ensures feeds { Feeds (stage.Known left) bytes.now result }
    ensures none_kept { KeepsNone result }
{
    if left == 0 {
        return Fed {
            stage: Stage::Over,
            piece: Piece::End(FieldList::new(alloc)),
            used: 0,
        };
    }
    if bytes.is_empty() {
        return Fed {
            stage: Stage::Known(left),
            piece: Piece::More,
            used: 0,
        };
    }
    let len = left.min(bytes.len() as u64);
    Fed {
        stage: Stage::Known(left - len),
        piece: Piece::Data(0, len as u32),
        used: len as usize,
    }
}

/// Bytes of a body that ends with the connection.
pub(crate) fn to_close(bytes: &[u8]) -> Fed
    requires { length bytes.now < 2 ^ 32 }
    ensures feeds { Feeds stage.Close bytes.now result }
    ensures none_kept { KeepsNone result }
{
    if bytes.is_empty() {
        return Fed {
            stage: Stage::Close,
            piece: Piece::More,
            used: 0,
        };
    }
    Fed {
        stage: Stage::Close,
        piece: Piece::Data(0, bytes.len() as u32),
        used: bytes.len(),
    }
}

// Bytes of a chunk's data.
fn data_of(left: u64, bytes: &[u8]) -> Fed
    requires some { 0 < left }
    requires short { length bytes.now < 2 ^ 32 }
    ensures feeds { Feeds (stage.Chunk left) bytes.now result }
    ensures none_kept { KeepsNone result }
{
    if bytes.is_empty() {
        return Fed {
            stage: Stage::Chunk(left),
            piece: Piece::More,
            used: 0,
        };
    }
    let len = left.min(bytes.len() as u64);
    Fed {
        stage: Stage::Chunk(left - len),
        piece: Piece::Data(0, len as u32),
        used: len as usize,
    }
}

// The trailer section, of which nothing came before. What it leaves unread is kept in place of what was kept.
fn section(alloc: Global, kept: &mut Vec<u8>, bytes: &[u8]) -> Result<Fed, Stop>
    requires { length bytes.now < 2 ^ 32 }
    ensures steps { BodySteps (rest.Trailers []) bytes.now kept.new.items result }
    ensures begun { KeepsBegun result kept.new.items }
    ensures memory { OnMemory result (kept.new.items ≡ kept.old.items) }
{
    if let Scan::Stop(n) = next_stop(section_place(b""), 0, bytes) {
        let (part, _) = bytes.split_at(n);
        match read_section(alloc, part)? {
            SectionRead::Whole(trailers, used) => {
                return Ok(Fed {
                    stage: Stage::Over,
                    piece: Piece::End(trailers),
                    used: used as usize,
                });
            }
            SectionRead::Bad => return Err(Stop::Bad),
            SectionRead::Long => return Err(Stop::Long),
            // Prover: isn't reached, since this part ends the section or makes it bad, which isn't proved.
            SectionRead::Partial => (),
        }
    }
    whole_section(alloc, kept, bytes)
}

// The same, read from all bytes.
fn whole_section(alloc: Global, kept: &mut Vec<u8>, bytes: &[u8]) -> Result<Fed, Stop>
    requires { length bytes.now < 2 ^ 32 }
    ensures steps { BodySteps (rest.Trailers []) bytes.now kept.new.items result }
    ensures begun { KeepsBegun result kept.new.items }
    ensures memory { OnMemory result (kept.new.items ≡ kept.old.items) }
{
    match read_section(alloc, bytes)? {
        SectionRead::Whole(trailers, used) => Ok(Fed {
            stage: Stage::Over,
            piece: Piece::End(trailers),
            used: used as usize,
        }),
        SectionRead::Partial => {
            let mut begun = Vec::new(alloc);
            begun.extend_from_slice(bytes)?;
            *kept = begun;
            Ok(Fed {
                stage: Stage::Trailers(section_place(bytes)),
                piece: Piece::More,
                used: bytes.len(),
            })
        }
        SectionRead::Bad => Err(Stop::Bad),
        SectionRead::Long => Err(Stop::Long),
    }
}

/// The trailer section, of which the kept bytes came before, up to this place.
pub(crate) fn trailers(
    alloc: Global,
    place: Place,
    kept: &mut Vec<u8>,
    bytes: &[u8],
) -> Result<Fed, Stop>
    requires begun { trailer_section kept.old.items ≡ Partial }
    requires here { IsAt (stage.Trailers place) kept.old.items }
    requires short { length bytes.now < 2 ^ 32 }
    ensures steps { BodySteps (rest.Trailers kept.old.items) bytes.now kept.new.items result }
    ensures begun { KeepsBegun result kept.new.items }
    ensures memory { OnMemory result (kept.new.items ≡ kept.old.items) }
{
    if let Scan::Quiet(end) = next_stop(place, kept.len(), bytes) {
        kept.extend_from_slice(bytes)?;
        return Ok(Fed {
            stage: Stage::Trailers(end),
            piece: Piece::More,
            used: bytes.len(),
        });
    }
    match keep_section(alloc, kept, bytes)? {
        SectionRead::Whole(trailers, used) => Ok(Fed {
            stage: Stage::Over,
            piece: Piece::End(trailers),
            used: used as usize,
        }),
        SectionRead::Partial => Ok(Fed {
            stage: Stage::Trailers(section_place(kept.as_slice())),
            piece: Piece::More,
            used: bytes.len(),
        }),
        SectionRead::Bad => Err(Stop::Bad),
        SectionRead::Long => Err(Stop::Long),
    }
}

/// The line of a chunk, of which the kept bytes came before, up to this place, and what stands behind it.
pub(crate) fn line(
    alloc: Global,
    place: ChunkPlace,
    kept: &mut Vec<u8>,
    bytes: &[u8],
) -> Result<Fed, Stop>
    requires begun { chunk_line kept.old.items ≡ Partial }
    requires here { IsAt (stage.Line place) kept.old.items }
    requires short { length bytes.now < 2 ^ 32 }
    ensures steps { BodySteps (rest.Line kept.old.items) bytes.now kept.new.items result }
    ensures begun { KeepsBegun result kept.new.items }
    ensures memory { OnMemory result (kept.new.items ≡ kept.old.items) }
{
    match next_over(place, kept.len(), bytes) {
        ChunkScan::On(end) => {
            kept.extend_from_slice(bytes)?;
            Ok(Fed {
                stage: Stage::Line(end),
                piece: Piece::More,
                used: bytes.len(),
            })
        }
        ChunkScan::Until(n) => told_line(alloc, kept, n, bytes),
    }
}

// The same, where so many of the bytes tell what the line is.
fn told_line(alloc: Global, kept: &mut Vec<u8>, until: usize, bytes: &[u8]) -> Result<Fed, Stop>
    requires begun { chunk_line kept.old.items ≡ Partial }
    requires inside { until ≤ length bytes.now }
    requires short { length bytes.now < 2 ^ 32 }
    ensures steps { BodySteps (rest.Line kept.old.items) bytes.now kept.new.items result }
    ensures begun { KeepsBegun result kept.new.items }
    ensures memory { OnMemory result (kept.new.items ≡ kept.old.items) }
{
    match keep_line_until(kept, until, bytes)? {
        SizeLine::Partial => Ok(Fed {
            stage: Stage::Line(chunk_place(kept.as_slice())),
            piece: Piece::More,
            used: bytes.len(),
        }),
        SizeLine::Bad => Err(Stop::Bad),
        SizeLine::Whole { used, size } => sized(alloc, kept, used, size, bytes),
    }
}

// What stands behind the line of a chunk of this size.
fn sized(
    alloc: Global,
    kept: &mut Vec<u8>,
    used: usize,
    size: u64,
    bytes: &[u8],
) -> Result<Fed, Stop>
    requires inside { used ≤ length bytes.now }
    requires short { length bytes.now < 2 ^ 32 }
    ensures steps { (before : Rest) → (0 < size → GivesContent before bytes.now used [] (rest.Chunk size))
        → (size ≡ 0 → GivesContent before bytes.now used [] (rest.Trailers []))
        → BodySteps before bytes.now kept.new.items result }
    ensures begun { KeepsBegun result kept.new.items }
    ensures memory { OnMemory result (kept.new.items ≡ kept.old.items) }
{
    let (_, others) = bytes.split_at(used);
    if size > 0 {
        return Ok(behind(used, data_of(size, others)));
    }
    match section(alloc, kept, others) {
        Ok(fed) => Ok(behind(used, fed)),
        Err(stop) => Err(stop),
    }
}

/// Bytes of a chunk's data, or its end and what stands behind it.
pub(crate) fn chunk(alloc: Global, kept: &mut Vec<u8>, left: u64, bytes: &[u8]) -> Result<Fed, Stop>
    requires { length bytes.now < 2 ^ 32 }
    ensures steps { BodySteps (rest.Chunk left) bytes.now kept.new.items result }
    ensures begun { KeepsBegun result kept.new.items }
{
    if left > 0 {
        return Ok(data_of(left, bytes));
    }
    match end_of_chunk(bytes) {
        ChunkEnd::Absent => Ok(Fed {
            stage: Stage::Chunk(0),
            piece: Piece::More,
            used: 0,
        }),
        ChunkEnd::Cr => Ok(Fed {
            stage: Stage::Lf,
            piece: Piece::More,
            used: 1,
        }),
        ChunkEnd::Wrong => Err(Stop::Bad),
        ChunkEnd::Whole => next_line(alloc, kept, 2, bytes),
    }
}

// The line of the next chunk, behind so many bytes.
fn next_line(alloc: Global, kept: &mut Vec<u8>, at: usize, bytes: &[u8]) -> Result<Fed, Stop>
    requires inside { at ≤ length bytes.now }
    requires short { length bytes.now < 2 ^ 32 }
    ensures steps { (before : Rest) → GivesContent before bytes.now at [] (rest.Line [])
        → BodySteps before bytes.now kept.new.items result }
    ensures begun { KeepsBegun result kept.new.items }
{
    kept.clear();
    let (_, others) = bytes.split_at(at);
    match line(alloc, ChunkPlace::Size(0), kept, others) {
        Ok(fed) => Ok(behind(at, fed)),
        Err(stop) => Err(stop),
    }
}

/// The LF of a chunk's end, and what stands behind it.
pub(crate) fn lf(alloc: Global, kept: &mut Vec<u8>, bytes: &[u8]) -> Result<Fed, Stop>
    requires { length bytes.now < 2 ^ 32 }
    ensures steps { BodySteps rest.Lf bytes.now kept.new.items result }
    ensures begun { KeepsBegun result kept.new.items }
{
    if bytes.is_empty() {
        return Ok(Fed {
            stage: Stage::Lf,
            piece: Piece::More,
            used: 0,
        });
    }
    if bytes[0] != b'\n' {
        return Err(Stop::Bad);
    }
    next_line(alloc, kept, 1, bytes)
}

/// What a stage makes of bytes.
pub(crate) fn step(
    alloc: Global,
    stage: Stage,
    kept: &mut Vec<u8>,
    bytes: &[u8],
) -> Result<Fed, Stop>
    requires begun { IsBegun (rest_of stage kept.old.items) }
    requires here { IsAt stage kept.old.items }
    requires short { length bytes.now < 2 ^ 32 }
    ensures steps { BodySteps (rest_of stage kept.old.items) bytes.now kept.new.items result }
    ensures begun { KeepsBegun result kept.new.items }
    ensures memory { OnMemory result (rest_of stage kept.new.items ≡ rest_of stage kept.old.items) }
{
    match stage {
        Stage::Known(left) => Ok(known(alloc, left, bytes)),
        Stage::Close => Ok(to_close(bytes)),
        Stage::Line(place) => line(alloc, place, kept, bytes),
        Stage::Chunk(left) => chunk(alloc, kept, left, bytes),
        Stage::Lf => lf(alloc, kept, bytes),
        Stage::Trailers(place) => trailers(alloc, place, kept, bytes),
        Stage::Over => Ok(Fed {
            stage: Stage::Over,
            piece: Piece::End(FieldList::new(alloc)),
            used: 0,
        }),
        Stage::Bad => Err(Stop::Bad),
        Stage::Long => Err(Stop::Long),
    }
}
