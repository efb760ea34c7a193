//! Integers and Huffman strings.

use crate::text::{bytes_of, push_hex, push_number};
use anyhow::{Context, Result, bail};
use hpack_prim::{PrimFault, huff_decode, huff_encode, huff_len, read_int, write_int};
use std::alloc::Global;

/// Appends a fault.
pub fn push_fault(alloc: Global, told: &mut String, fault: PrimFault) -> Result<()> {
    match fault {
        PrimFault::Truncated(at) => push_number(alloc, told, "refused truncated", u64::from(at)),
        PrimFault::TooLarge(at) => push_number(alloc, told, "refused too-large", u64::from(at)),
        PrimFault::Eos(at) => push_number(alloc, told, "refused eos", u64::from(at)),
        PrimFault::Padding(at) => push_number(alloc, told, "refused padding", u64::from(at)),
    }
}

// The number in front of a text, and the text behind it.
fn number_in(text: &str) -> Result<(u32, &str)> {
    let (number, rest) = text.split_once(' ').context("too few words")?;
    Ok((number.parse::<u32>()?, rest))
}

/// Reads an integer.
pub fn int(alloc: Global, told: &mut String, text: &str) -> Result<()> {
    let (prefix, rest) = number_in(text)?;
    let (at, rest) = number_in(rest)?;
    let bytes = bytes_of(alloc, rest)?;
    if prefix < 1 || prefix > 8 || bytes.len() > 100 {
        bail!("no such integer");
    }
    match read_int(bytes.as_slice(), at, prefix as u8) {
        Ok((value, next)) => {
            push_number(alloc, told, "value", u64::from(value))?;
            push_number(alloc, told, " next", u64::from(next))
        }
        Err(fault) => push_fault(alloc, told, fault),
    }
}

/// Writes an integer.
pub fn written_int(alloc: Global, told: &mut String, text: &str) -> Result<()> {
    let (prefix, rest) = number_in(text)?;
    let (first, value) = number_in(rest)?;
    if prefix < 1 || prefix > 8 || first > 255 {
        bail!("no such integer");
    }
    let (prefix, first) = (prefix as u8, first as u8);
    if u32::from(first) % (1 << prefix) != 0 {
        bail!("low bits of the first byte");
    }
    let mut out = [7u8; 8];
    let len = write_int(value.parse::<u32>()?, prefix, first, &mut out);
    push_halves(alloc, told, &out, len)
}

// Appends the first bytes, and those behind them.
fn push_halves(alloc: Global, told: &mut String, out: &[u8], len: u32) -> Result<()> {
    let (written, behind) = out.split_at((len as usize).min(out.len()));
    push_hex(alloc, told, "written", written)?;
    push_hex(alloc, told, " behind", behind)
}

// The text of a Huffman string.
fn decoded(alloc: Global, bytes: &[u8]) -> Result<Result<Vec<u8>, PrimFault>> {
    if bytes.len() > 1000 {
        bail!("too many bytes");
    }
    let mut out = vec![in alloc; 0u8; 2 * bytes.len()]?;
    match huff_decode(bytes, out.as_mut_slice()) {
        Ok(len) => {
            out.truncate(len as usize);
            Ok(Ok(out))
        }
        Err(fault) => Ok(Err(fault)),
    }
}

/// Reads a Huffman string.
pub fn huffman(alloc: Global, told: &mut String, text: &str) -> Result<()> {
    match decoded(alloc, bytes_of(alloc, text)?.as_slice())? {
        Ok(out) => push_hex(alloc, told, "text", out.as_slice()),
        Err(fault) => push_fault(alloc, told, fault),
    }
}

// A Huffman string in front of bytes of 7, and its length.
fn encoded(bytes: &[u8]) -> Result<([u8; 32], u32)> {
    if bytes.len() > 100 {
        bail!("too many bytes");
    }
    if huff_len(bytes) > 32 {
        bail!("too many bytes");
    }
    let mut out = [7u8; 32];
    let len = huff_encode(bytes, &mut out);
    Ok((out, len))
}

/// Writes a Huffman string.
pub fn written_huffman(alloc: Global, told: &mut String, text: &str) -> Result<()> {
    let bytes = bytes_of(alloc, text)?;
    let (out, len) = encoded(bytes.as_slice())?;
    push_halves(alloc, told, &out, len)
}

/// Whether each byte comes back from its Huffman string, around an `a`.
pub fn each_byte(alloc: Global, told: &mut String) -> Result<()> {
    for byte in 0..=255u8 {
        let bytes = [byte, b'a', byte];
        let (out, len) = encoded(&bytes)?;
        let (string, _) = out.split_at((len as usize).min(32));
        match decoded(alloc, string)? {
            Ok(again) if again.as_slice() == bytes.as_slice() => (),
            _ => return push_number(alloc, told, "lost", u64::from(byte)),
        }
    }
    Ok(told.push_str("all come back")?)
}
