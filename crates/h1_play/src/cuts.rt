//! A message in pieces of many lengths.

use crate::reader::{Answer, Reader, push_answer};
use crate::text::{push_bytes, push_number};
use anyhow::{Result, bail};
use std::alloc::Global;

/// The lengths of pieces beside 1; the last is that of any text.
const LENGTHS: [usize; 5] = [2, 3, 7, 100, 1_000_000];

/// The most pieces.
const MOST: usize = 1_000_000;

// The bytes behind so many.
fn behind(bytes: &[u8], count: usize) -> &[u8] {
    let (_, rest) = bytes.split_at(count.min(bytes.len()));
    rest
}

// The first bytes, at most so many.
fn front(bytes: &[u8], count: usize) -> &[u8] {
    let (first, _) = bytes.split_at(count.min(bytes.len()));
    first
}

// Tells what a new reader makes of the bytes in pieces of this length, and answers how many bytes had come by then.
fn in_pieces(
    alloc: Global,
    word: &str,
    bytes: &[u8],
    length: usize,
    told: &mut String,
) -> Result<usize> {
    let mut reader = Reader::begin(alloc, word)?;
    let mut used = 0usize;
    for _ in 0..MOST {
        let piece = front(behind(bytes, used), length);
        let come = used.saturating_add(piece.len());
        let (answer, count) = reader.feed(piece)?;
        used = used.saturating_add(count);
        match answer {
            Answer::More => (),
            Answer::Data(start, len) => push_bytes(told, front(behind(piece, start), len))?,
            _ => {
                if told.len() > 0 {
                    told.push(' ')?;
                }
                push_answer(alloc, told, &answer, used)?;
                return Ok(come);
            }
        }
        if piece.is_empty() {
            push_number(alloc, told, "open, held", reader.held())?;
            return Ok(come);
        }
    }
    bail!("too many pieces")
}

/// What a new reader makes of the bytes, which is the same in pieces of all lengths.
pub fn in_every_cut(alloc: Global, word: &str, bytes: &[u8]) -> Result<String> {
    let mut told = String::new(alloc);
    let come = in_pieces(alloc, word, bytes, 1, &mut told)?;
    for length in LENGTHS {
        let mut other = String::new(alloc);
        in_pieces(alloc, word, bytes, length, &mut other)?;
        if other.as_str() != told.as_str() {
            bail!("{told}, but in pieces of {length} {other}");
        }
    }
    push_number(alloc, &mut told, " at", come as u64)?;
    Ok(told)
}
