//! What stands behind the first word of a line.

ghost use Rattle.std.specs.Prelude.{◌≡◌, ◌-◌, ◌^◌, option_copied, IfOk};
ghost use Rattle.trace_format.specs.Lines.{alone as only, one_more, two_more, exchange_of, bytes_of, number_of, kind_of, config_of, answer_of, ending_of, port_behind};

use crate::line::TraceLine;
use crate::numbers::number;
use crate::parts::{parted, read_hex};
use pb_wire::Blob;
use std::alloc::{AllocError, Global};

/// The line of a word that stands alone.
pub fn alone(line: TraceLine, rest: Option<&[u8]>) -> Option<TraceLine>
    ensures { result ≡ only line (option_copied rest.entry) }
{
    match rest {
        None => Some(line),
        Some(_) => None,
    }
}

/// The number of an exchange.
pub fn exchange(text: &[u8]) -> Option<u32>
    ensures { result ≡ exchange_of text.now }
{
    match number(text, 0xffff_ffff) {
        Some(x) => Some(x as u32),
        None => None,
    }
}

/// The number of an exchange that stands alone behind the word.
pub fn exchange_behind(rest: Option<&[u8]>) -> Option<u32>
    ensures { result ≡ one_more exchange_of (option_copied rest.entry) }
{
    match rest {
        Some(text) => exchange(text),
        None => None,
    }
}

/// The time in milliseconds that stands alone behind the word.
pub fn time_behind(rest: Option<&[u8]>) -> Option<u64>
    ensures { result ≡ one_more (number_of (2 ^ 64 - 1)) (option_copied rest.entry) }
{
    match rest {
        Some(text) => number(text, u64::MAX),
        None => None,
    }
}

/// The bytes that stand alone behind the word.
pub fn bytes_behind(alloc: Global, rest: Option<&[u8]>) -> Result<Option<Blob>, AllocError>
    ensures { IfOk result (λ o. o ≡ one_more bytes_of (option_copied rest.entry)) }
{
    match rest {
        Some(text) => read_hex(alloc, text),
        None => Ok(None),
    }
}

/// What the processor's side of the trace is made of.
pub fn kind(rest: Option<&[u8]>) -> Option<TraceLine>
    ensures { result ≡ one_more kind_of (option_copied rest.entry) }
{
    match rest {
        Some(text) => {
            if text == b"1 messages".as_slice() {
                return Some(TraceLine::First(false));
            }
            if text == b"1 bytes".as_slice() {
                return Some(TraceLine::First(true));
            }
            None
        }
        None => None,
    }
}

/// The configuration: any text of one line.
pub fn config(alloc: Global, rest: Option<&[u8]>) -> Result<Option<TraceLine>, AllocError>
    ensures { IfOk result (λ o. o ≡ one_more config_of (option_copied rest.entry)) }
{
    match rest {
        Some(text) => {
            if text.contains(&b'\n') {
                return Ok(None);
            }
            Ok(Some(TraceLine::Config(Blob::of(alloc, text)?)))
        }
        None => Ok(None),
    }
}

// The bytes of an answer, none for `-`.
fn answer_bytes(alloc: Global, text: &[u8]) -> Result<Option<Blob>, AllocError>
    ensures { IfOk result (λ o. o ≡ answer_of text.now) }
{
    if text == b"-".as_slice() {
        return Ok(Some(Blob::new(alloc)));
    }
    read_hex(alloc, text)
}

// Whether a stream was closed cleanly.
fn ending(text: &[u8]) -> Option<bool>
    ensures { result ≡ ending_of text.now }
{
    if text == b"clean".as_slice() {
        return Some(true);
    }
    if text == b"error".as_slice() {
        return Some(false);
    }
    None
}

/// An exchange, and bytes that arrived on one of its links.
pub fn arrival(alloc: Global, rest: Option<&[u8]>) -> Result<Option<(u32, Blob)>, AllocError>
    ensures { IfOk result (λ o. o ≡ two_more exchange_of bytes_of (option_copied rest.entry)) }
{
    // Prover: `?` on an `Option` would leave a goal open, here and below.
    let Some(text) = rest else {
        return Ok(None);
    };
    let (first, second) = parted(text);
    let Some(x) = exchange(first) else {
        return Ok(None);
    };
    let Some(data) = bytes_behind(alloc, second)? else {
        return Ok(None);
    };
    Ok(Some((x, data)))
}

/// An exchange, and an answer that its processor gave.
pub fn answer(alloc: Global, rest: Option<&[u8]>) -> Result<Option<(u32, Blob)>, AllocError>
    ensures { IfOk result (λ o. o ≡ two_more exchange_of answer_of (option_copied rest.entry)) }
{
    let Some(text) = rest else {
        return Ok(None);
    };
    let (first, second) = parted(text);
    let Some(x) = exchange(first) else {
        return Ok(None);
    };
    let Some(behind) = second else {
        return Ok(None);
    };
    let Some(data) = answer_bytes(alloc, behind)? else {
        return Ok(None);
    };
    Ok(Some((x, data)))
}

/// An exchange, and whether its processor's stream was closed cleanly.
pub fn close(rest: Option<&[u8]>) -> Option<(u32, bool)>
    ensures { result ≡ two_more exchange_of ending_of (option_copied rest.entry) }
{
    let Some(text) = rest else {
        return None;
    };
    let (first, second) = parted(text);
    let Some(x) = exchange(first) else {
        return None;
    };
    let Some(behind) = second else {
        return None;
    };
    let Some(clean) = ending(behind) else {
        return None;
    };
    Some((x, clean))
}

/// A port from which nothing is taken any more, or again.
#[derive(Clone, Copy)]
pub enum Port {
    Client(u32),
    Up(u32),
    Ext,
}

/// The port that stands behind `hold` or `free`.
pub fn port_named(rest: Option<&[u8]>) -> Option<Port>
    ensures { result ≡ port_behind (option_copied rest.entry) }
{
    let Some(text) = rest else {
        return None;
    };
    let (first, second) = parted(text);
    if first == b"client".as_slice() {
        let Some(x) = exchange_behind(second) else {
            return None;
        };
        return Some(Port::Client(x));
    }
    if first == b"up".as_slice() {
        let Some(x) = exchange_behind(second) else {
            return None;
        };
        return Some(Port::Up(x));
    }
    if first == b"ext".as_slice() && second.is_none() {
        return Some(Port::Ext);
    }
    None
}
