//! The line of a chunk: RFC 9112 section 7.1.

ghost use Rattle.std.specs.Prelude.{◌≡◌, ◌<◌, ◌≤◌, ◌++◌, length, IfOk, OnErr};
ghost use Rattle.http_model.specs.Reading.{Partial};
ghost use Rattle.http_model.specs.Lines.{line, chunk_line_at, chunk_line};
ghost use Rattle.h1_read.specs.SizeLine.{size_reading, UsedWithin};
ghost use Rattle.h1_read.specs.Stages.{kept_line};
ghost use Rattle.h1_read.specs.ChunkPlaces.{size_over, digit_on, extension_on, chunk_on, chunk_places, is_over};
ghost use Rattle.h1_read.specs.ChunkPlaces.{IsChunkScan, IsNextOver};
ghost use Rattle.h1_read.specs.declared.chunk_line.ChunkPlace.TheVariants as place;

use httparse::{Status, parse_chunk_size};
use std::alloc::AllocError;

/// What the bytes so far give of a chunk's line.
#[derive(Clone, Copy)]
pub(crate) enum SizeLine {
    /// So many bytes are the line, and it says this size.
    Whole { used: usize, size: u64 },
    /// More bytes may make it a line.
    Partial,
    /// No bytes that follow can.
    Bad,
}

fn line_of(bytes: &[u8]) -> SizeLine
    ensures exact { chunk_line_at bytes.now (line bytes.now) ≡ size_reading bytes.now result }
    ensures inside { UsedWithin bytes.now result }
{
    match parse_chunk_size(bytes) {
        Ok(Status::Complete((used, size))) => SizeLine::Whole { used, size },
        Ok(Status::Partial) => SizeLine::Partial,
        Err(_) => SizeLine::Bad,
    }
}

/// Where the bytes of a line so far end.
#[derive(Clone, Copy)]
pub(crate) enum ChunkPlace {
    /// Behind so many digits of the size.
    Size(usize),
    /// Behind the blanks that follow the size.
    Blanks,
    Extension,
    /// Behind the CR of its end.
    Cr,
    /// The last byte ends the line or makes it bad: the parser says which.
    Over,
}

/// What stands in some bytes.
#[derive(Clone, Copy)]
pub(crate) enum ChunkScan {
    /// Nothing that the parser has to read yet, and here they end.
    On(ChunkPlace),
    /// The parser has to read these first bytes.
    Until(usize),
}

// Behind the size.
fn size_over(b: u8) -> ChunkPlace
    ensures { result ≡ size_over b }
{
    if b == b' ' || b == b'\t' {
        return ChunkPlace::Blanks;
    }
    if b == b';' {
        return ChunkPlace::Extension;
    }
    if b == b'\r' {
        return ChunkPlace::Cr;
    }
    ChunkPlace::Over
}

fn digit_on(count: usize, b: u8) -> ChunkPlace
    ensures { result ≡ digit_on count b }
{
    if b.is_ascii_hexdigit() {
        if count < 16 {
            return ChunkPlace::Size(count + 1);
        }
        return ChunkPlace::Over;
    }
    if count == 0 {
        return ChunkPlace::Over;
    }
    size_over(b)
}

fn extension_on(b: u8) -> ChunkPlace
    ensures { result ≡ extension_on b }
{
    if b == b'\r' {
        return ChunkPlace::Cr;
    }
    if b == b'\n' {
        return ChunkPlace::Over;
    }
    ChunkPlace::Extension
}

// One byte on.
fn chunk_on(place: ChunkPlace, b: u8) -> ChunkPlace
    ensures { result ≡ chunk_on place b }
{
    match place {
        ChunkPlace::Size(count) => digit_on(count, b),
        ChunkPlace::Blanks => size_over(b),
        ChunkPlace::Extension => extension_on(b),
        ChunkPlace::Cr => ChunkPlace::Over,
        ChunkPlace::Over => ChunkPlace::Over,
    }
}

fn is_over(place: ChunkPlace) -> bool
    ensures { result ≡ is_over place }
{
    match place {
        ChunkPlace::Over => true,
        _ => false,
    }
}

/// Where the bytes of a line end.
pub(crate) fn chunk_place(bytes: &[u8]) -> ChunkPlace
    ensures { result ≡ chunk_places (place.Size 0) bytes.now }
{
    let mut now = ChunkPlace::Size(0);
    for at in 0..bytes.len() {
        now = chunk_on(now, bytes[at]);
    }
    now
}

// Looks for the first byte behind a place that the parser has to read.
fn first_over(place: ChunkPlace, bytes: &[u8]) -> ChunkScan
    ensures { IsChunkScan place bytes.now result }
{
    let mut now = place;
    for at in 0..bytes.len() {
        now = chunk_on(now, bytes[at]);
        if is_over(now) {
            return ChunkScan::Until(at + 1);
        }
    }
    if is_over(now) {
        return ChunkScan::Until(0);
    }
    ChunkScan::On(now)
}

const LIMIT: usize = 4096;

/// The same of a line of which so many bytes came before. The parser also has to read where it is too long.
pub(crate) fn next_over(place: ChunkPlace, before: usize, bytes: &[u8]) -> ChunkScan
    requires { before < 4096 }
    ensures { IsNextOver place before bytes.now result }
{
    let room = LIMIT - before;
    if bytes.len() < room {
        return first_over(place, bytes);
    }
    match first_over(place, &bytes[..room]) {
        ChunkScan::On(_) => ChunkScan::Until(room),
        ChunkScan::Until(n) => ChunkScan::Until(n),
    }
}

/// Reads the line of a chunk within the first 4,096 bytes.
pub(crate) fn chunk_line(bytes: &[u8]) -> SizeLine
    ensures exact { chunk_line bytes.now ≡ size_reading bytes.now result }
    ensures inside { UsedWithin bytes.now result }
{
    if bytes.len() < LIMIT {
        return short_line(bytes);
    }
    match line_of(&bytes[..LIMIT]) {
        SizeLine::Whole { used, size } => SizeLine::Whole { used, size },
        SizeLine::Partial => SizeLine::Bad,
        SizeLine::Bad => SizeLine::Bad,
    }
}

fn short_line(bytes: &[u8]) -> SizeLine
    requires { length bytes.now < 4096 }
    ensures exact { chunk_line bytes.now ≡ size_reading bytes.now result }
    ensures inside { UsedWithin bytes.now result }
{
    line_of(bytes)
}

/// Reads the line of a chunk that began with the kept bytes; of a line that goes on all bytes are kept.
pub(crate) fn keep_line(kept: &mut Vec<u8>, bytes: &[u8]) -> Result<SizeLine, AllocError>
    requires { chunk_line kept.old.items ≡ Partial }
    ensures exact { IfOk result (λ l. chunk_line (kept.old.items ++ bytes.now) ≡ size_reading bytes.now l) }
    ensures inside { IfOk result (λ l. UsedWithin bytes.now l) }
    ensures kept { IfOk result (λ l. kept.new.items ≡ kept_line kept.old.items bytes.now l) }
    ensures memory { OnErr result (kept.new.items ≡ kept.old.items) }
{
    let old = kept.as_slice().len();
    let part = bytes.len().min(LIMIT - old);
    kept.extend_from_slice(&bytes[..part])?;
    match chunk_line(kept.as_slice()) {
        SizeLine::Whole { used, size } => {
            kept.truncate(old);
            Ok(SizeLine::Whole {
                used: used - old,
                size,
            })
        }
        SizeLine::Partial => Ok(SizeLine::Partial),
        SizeLine::Bad => {
            kept.truncate(old);
            Ok(SizeLine::Bad)
        }
    }
}

/// The same, where the line is told by so many of the bytes that came: no others are copied.
pub(crate) fn keep_line_until(
    kept: &mut Vec<u8>,
    until: usize,
    bytes: &[u8],
) -> Result<SizeLine, AllocError>
    requires begun { chunk_line kept.old.items ≡ Partial }
    requires inside { until ≤ length bytes.now }
    ensures exact { IfOk result (λ l. chunk_line (kept.old.items ++ bytes.now) ≡ size_reading bytes.now l) }
    ensures inside { IfOk result (λ l. UsedWithin bytes.now l) }
    ensures kept { IfOk result (λ l. kept.new.items ≡ kept_line kept.old.items bytes.now l) }
    ensures memory { OnErr result (kept.new.items ≡ kept.old.items) }
{
    let old = kept.len();
    let (part, _) = bytes.split_at(until);
    match keep_line(kept, part)? {
        SizeLine::Whole { used, size } => Ok(SizeLine::Whole { used, size }),
        SizeLine::Bad => Ok(SizeLine::Bad),
        // Prover: isn't reached, since these bytes end the line or make it bad, which isn't proved.
        SizeLine::Partial => {
            kept.truncate(old);
            keep_line(kept, bytes)
        }
    }
}
