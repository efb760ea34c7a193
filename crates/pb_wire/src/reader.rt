//! Reading records.

ghost use Rattle.std.specs.Prelude.{◌≡◌, ◌+◌, ◌≤◌, ◌<◌, ◌^◌, length, None, Some, Ok, Err};
ghost use Rattle.std.specs.Int.{w32, w64};
ghost use Rattle.pb_wire.specs.Reading.{Gives, fixed_at, tag_of, content_at, entry_at, raw_content};
ghost use Rattle.pb_wire.specs.Cursor.{Steps, inner_len, payload_before};

use crate::fault::{Cause, WireFault};
use crate::varint::varint;
use std::marker::Model;

/// What stands behind a tag.
#[derive(Clone, Copy)]
pub enum Payload {
    /// Type 0.
    Varint(u64),
    /// Type 1: eight bytes, least first.
    Fixed64(u64),
    /// Type 2: bytes, by their start and length in the reader's bytes.
    Span(u32, u32),
    /// Type 5: four bytes, least first.
    Fixed32(u32),
}

/// One record: the place of its first byte, the field's number, and its payload.
#[derive(Clone, Copy)]
pub struct Record {
    pub place: u32,
    pub number: u32,
    pub payload: Payload,
}

// A payload with the bytes themselves.
pub(crate) enum Raw<'a> {
    Varint(u64),
    Fixed64(u64),
    Bytes(&'a [u8]),
    Fixed32(u32),
}

fn fixed64(bytes: &[u8]) -> Result<(u64, &[u8]), Cause>
    ensures { Gives (λ x. (x.0, x.1.now)) result (fixed_at w64 bytes.now) }
{
    if bytes.len() < 8 {
        return Err(Cause::Truncated);
    }
    let (front, rest) = bytes.split_at(8);
    let number = u64::from_le_bytes([
        front[0], front[1], front[2], front[3], front[4], front[5], front[6], front[7],
    ]);
    Ok((number, rest))
}

fn fixed32(bytes: &[u8]) -> Result<(u32, &[u8]), Cause>
    ensures { Gives (λ x. (x.0, x.1.now)) result (fixed_at w32 bytes.now) }
{
    if bytes.len() < 4 {
        return Err(Cause::Truncated);
    }
    let (front, rest) = bytes.split_at(4);
    let number = u32::from_le_bytes([front[0], front[1], front[2], front[3]]);
    Ok((number, rest))
}

// The number and the type of a tag.
#[tactic(auto, unfolding(crate::specs::Reading::tag_of))]
fn split_tag(tag: u64) -> Result<(u32, u8), Cause>
    ensures { Gives (λ x. (x.0, x.1)) result (tag_of tag) }
{
    let number = tag / 8;
    let kind = (tag % 8) as u8;
    if number == 0 || number > 0x1fff_ffff || kind > 5 {
        return Err(Cause::BadTag);
    }
    if kind == 3 || kind == 4 {
        return Err(Cause::Group);
    }
    Ok((number as u32, kind))
}

#[tactic(auto, unfolding(crate::specs::Reading::content_at))]
fn content(kind: u8, bytes: &[u8]) -> Result<(Raw<'_>, &[u8]), Cause>
    ensures { Gives (λ x. (raw_content x.0, x.1.now)) result (content_at kind bytes.now) }
{
    if kind == 0 {
        let (number, rest) = varint(bytes)?;
        return Ok((Raw::Varint(number), rest));
    }
    if kind == 1 {
        let (number, rest) = fixed64(bytes)?;
        return Ok((Raw::Fixed64(number), rest));
    }
    if kind == 2 {
        let (len, rest) = varint(bytes)?;
        if (rest.len() as u64) < len {
            return Err(Cause::Truncated);
        }
        let (inner, rest) = rest.split_at(len as usize);
        return Ok((Raw::Bytes(inner), rest));
    }
    let (number, rest) = fixed32(bytes)?;
    Ok((Raw::Fixed32(number), rest))
}

// The record at the front, and the bytes after it.
#[tactic(auto, unfolding(crate::specs::Reading::entry_at))]
fn entry(bytes: &[u8]) -> Result<(u32, Raw<'_>, &[u8]), Cause>
    ensures { Gives (λ x. (record { number = x.0; content = raw_content x.1 }, x.2.now)) result (entry_at bytes.now) }
{
    let (tag, rest) = varint(bytes)?;
    let (number, kind) = split_tag(tag)?;
    let (content, rest) = content(kind, rest)?;
    Ok((number, content, rest))
}

// Where the content's bytes are, if they end at next.
fn payload_before(next: usize, raw: Raw<'_>) -> Payload
    requires fits { next < 2 ^ 32 }
    requires room { inner_len (raw_content raw) ≤ next }
    ensures { result ≡ payload_before next raw.entry }
{
    match raw {
        Raw::Varint(n) => Payload::Varint(n),
        Raw::Fixed64(n) => Payload::Fixed64(n),
        Raw::Bytes(inner) => Payload::Span((next - inner.len()) as u32, inner.len() as u32),
        Raw::Fixed32(n) => Payload::Fixed32(n),
    }
}

// The record that begins at a place of the bytes, of which the part to read ends at `end`, and the place behind it.
fn step(bytes: &[u8], at: usize, end: usize) -> Result<Option<(Record, usize)>, WireFault>
    requires order { at ≤ end }
    requires inside { end ≤ length bytes.now }
    requires short { length bytes.now < 2 ^ 32 }
    ensures { Steps bytes.now at end result }
{
    if at == end {
        return Ok(None);
    }
    let place = at as u32;
    match entry(&bytes[at..end]) {
        Err(cause) => Err(cause.at(place)),
        Ok((number, raw, rest)) => {
            let next = end - rest.len();
            let payload = payload_before(next, raw);
            Ok(Some((
                Record {
                    place,
                    number,
                    payload,
                },
                next,
            )))
        }
    }
}

/// Reads records from left to right. It takes no memory. Places are those in all of the bytes that it was given.
#[derive(Drop)]
pub struct Reader<'a> {
    bytes: &'a [u8],
    at: usize,
    end: usize,
    fault: Option<WireFault>,
}

impl<'a> Model for Reader<'a> {
    ghost use Rattle.std.specs.Prelude.{◌≤◌, ◌<◌, ◌^◌, length};
    ghost use Rattle.pb_wire.specs.Cursor.{Cursor};

    ghost Value = { Cursor };

    ghost view = { λ a. record { whole = a.bytes.now; at = a.at; end = a.end; failed = a.fault } };

    ghost invariant = { λ a. (a.at ≤ a.end) × (a.end ≤ length a.bytes.now) × (length a.bytes.now < 2 ^ 32) };
}

impl<'a> Reader<'a> {
    ghost use Rattle.pb_wire.specs.Cursor.{Cursor, Nexts};

    /// A reader over all of the bytes.
    pub fn new(bytes: &'a [u8]) -> Reader<'a>
        requires { length bytes.now < 2 ^ 32 }
        ensures { result ≡ record { whole = bytes.now; at = 0; end = length bytes.now; failed = None } }
    {
        Reader {
            bytes,
            at: 0,
            end: bytes.len(),
            fault: None,
        }
    }

    /// A reader over the part of the bytes that begins at `start` and has `len` bytes.
    pub fn within(bytes: &'a [u8], start: u32, len: u32) -> Reader<'a>
        requires short { length bytes.now < 2 ^ 32 }
        requires inside { start + len ≤ length bytes.now }
        ensures { result ≡ record { whole = bytes.now; at = start; end = start + len; failed = None } }
    {
        Reader {
            bytes,
            at: start as usize,
            end: start as usize + len as usize,
            fault: None,
        }
    }

    /// The next record, or none at the end of the part. After a fault it answers the same fault again.
    pub fn next(&mut self) -> Result<Option<Record>, WireFault>
        ensures { Nexts self.old self.new result }
    {
        if let Some(fault) = self.fault {
            return Err(fault);
        }
        match step(self.bytes, self.at, self.end) {
            Err(fault) => {
                self.fault = Some(fault);
                Err(fault)
            }
            Ok(None) => Ok(None),
            Ok(Some((record, next))) => {
                self.at = next;
                Ok(Some(record))
            }
        }
    }
}
