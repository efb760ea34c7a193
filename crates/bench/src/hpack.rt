//! HPACK: a text of 1 MiB as a Huffman string, and header blocks of twelve common fields.

ghost use Rattle.std.specs.Prelude.{◌<◌, ◌^◌, All, IsTrue, length};

use crate::table::{nanos_since, print_row};
use anyhow::{Result, bail};
use ext_msgs::{Field, FieldList};
use hpack_core::{Decoder, Encoder};
use hpack_prim::{huff_decode, huff_encode, huff_len};
use pb_wire::Blob;
use std::alloc::Global;
use std::time::Instant;

/// How often each call is measured, of which the least time counts.
const ROUNDS: u32 = 32;

/// How often the value is repeated, and how many blocks one measure takes.
const REPEATS: u32 = 16_384;

const BLOCKS: u32 = 4096;

/// A value as a browser sends it, of 64 bytes.
const VALUE: &[u8] = b"text/html,application/xhtml+xml,application/xml;q=0.9,image/webp";

fn text(alloc: Global) -> Result<Vec<u8>> {
    let mut text = Vec::new(alloc);
    for _ in 0..REPEATS {
        text.extend_from_slice(VALUE)?;
    }
    Ok(text)
}

// The least time to spell a text as a Huffman string, of some, and the string.
fn encode_text(rt: &HostRuntime, text: &[u8]) -> Result<(u64, Vec<u8>)> {
    if text.len() >= 0x2000_0000 {
        bail!("a text is too long");
    }
    let len = huff_len(text);
    if len >= 0x1_0000_0000 {
        bail!("a string is too long");
    }
    let mut string = vec![in rt.alloc(); 0u8; len as usize]?;
    let mut least = u64::MAX;
    for _ in 0..ROUNDS {
        let start = Instant::now(rt)?;
        huff_encode(text, &mut string);
        least = least.min(nanos_since(rt, start)?);
    }
    Ok((least, string))
}

// The least time to read it back, of some.
fn decode_text(rt: &HostRuntime, string: &[u8]) -> Result<u64> {
    if string.len() >= 0x2000_0000 {
        bail!("a string is too long");
    }
    let mut out = vec![in rt.alloc(); 0u8; 2 * string.len()]?;
    let mut least = u64::MAX;
    for _ in 0..ROUNDS {
        let start = Instant::now(rt)?;
        huff_decode(string, &mut out)?;
        least = least.min(nanos_since(rt, start)?);
    }
    Ok(least)
}

/// Two rows: the bytes of text.
pub fn measure_huffman(rt: &HostRuntime) -> Result<()> {
    let text = text(rt.alloc())?;
    let size = text.len() as u64;
    let (encoding, string) = encode_text(rt, text.as_slice())?;
    print_row(rt, "huffman, encode", size, encoding, size)?;
    let decoding = decode_text(rt, string.as_slice())?;
    print_row(rt, "huffman, decode", size, decoding, size)
}

// A field is put behind the others.
fn push(alloc: Global, fields: &mut FieldList, name: &[u8], value: &[u8]) -> Result<()> {
    let name = Blob::of(alloc, name)?;
    let value = Blob::of(alloc, value)?;
    fields.push(Field { name, value })?;
    Ok(())
}

// The fields of a request as a browser sends it: some that the static table has, and some of its own.
fn head(alloc: Global) -> Result<FieldList> {
    let mut fields = FieldList::new(alloc);
    push(alloc, &mut fields, b":method", b"GET")?;
    push(
        alloc,
        &mut fields,
        b":path",
        b"/articles/2026/12/a-common-path?page=2",
    )?;
    push(alloc, &mut fields, b"accept", VALUE)?;
    push(
        alloc,
        &mut fields,
        b"referer",
        b"https://www.example.com/articles/",
    )?;
    for _ in 0..8 {
        push(
            alloc,
            &mut fields,
            b"x-request-id",
            b"7e4c3f0a-1b2d-4e5f-8a9b-0c1d2e3f4a5b",
        )?;
    }
    Ok(fields)
}

// Whether names and values are such as an encoder takes.
fn is_short(fields: &FieldList) -> bool
    ensures { IsTrue result → All (λ f. (length f.name < 2 ^ 32) × (length f.value < 2 ^ 32)) fields.now }
{
    let names = fields
        .as_slice()
        .iter()
        .all(|f| (f.name.len() as u64) < 0x1_0000_0000);
    let values = fields
        .as_slice()
        .iter()
        .all(|f| (f.value.len() as u64) < 0x1_0000_0000);
    names && values
}

// The least time to write so many blocks, of some, and one of them.
fn encode_blocks(rt: &HostRuntime, fields: &FieldList) -> Result<(u64, Blob)> {
    if !is_short(fields) {
        bail!("a field is too long");
    }
    let mut encoder = Encoder::new(rt.alloc())?;
    let block = encoder.block(fields)?;
    let mut least = u64::MAX;
    for _ in 0..ROUNDS {
        let start = Instant::now(rt)?;
        for _ in 0..BLOCKS {
            let _ = encoder.block(fields)?;
        }
        least = least.min(nanos_since(rt, start)?);
    }
    Ok((least, block))
}

// The least time to read a block so often, of some.
fn decode_blocks(rt: &HostRuntime, block: &[u8]) -> Result<u64> {
    if block.len() >= 0x8000_0000 {
        bail!("a block is too long");
    }
    let mut decoder = Decoder::new(rt.alloc())?;
    let mut least = u64::MAX;
    for _ in 0..ROUNDS {
        let start = Instant::now(rt)?;
        for _ in 0..BLOCKS {
            let _ = decoder.block(block)?;
        }
        least = least.min(nanos_since(rt, start)?);
    }
    Ok(least)
}

/// Two rows: the blocks.
pub fn measure_blocks(rt: &HostRuntime) -> Result<()> {
    let fields = head(rt.alloc())?;
    let (encoding, block) = encode_blocks(rt, &fields)?;
    let size = block.len() as u64;
    print_row(rt, "block, encode", size, encoding, u64::from(BLOCKS))?;
    let decoding = decode_blocks(rt, block.bytes())?;
    print_row(rt, "block, decode", size, decoding, u64::from(BLOCKS))
}
