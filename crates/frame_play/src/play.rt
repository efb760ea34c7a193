//! The lines of a script.

use crate::blocks::Coders;
use crate::text::bytes_of;
use crate::{frames, prims};
use anyhow::{Result, bail};
use h2_frames::FrameReader;
use std::alloc::Global;

/// What a line tells; it tells itself where there is nothing else to tell.
pub fn line(
    alloc: Global,
    coders: &mut Coders,
    reader: &mut FrameReader,
    line: &str,
) -> Result<String> {
    let mut told = String::new(alloc);
    let (word, text) = line.split_once(' ').unwrap_or((line, ""));
    match word {
        "#" => told.push_str(line)?,
        "frames" => frames::in_any_cut(alloc, &mut told, bytes_of(alloc, text)?.as_slice())?,
        "rewrite" => frames::rewritten(alloc, &mut told, bytes_of(alloc, text)?.as_slice())?,
        "reader" => {
            *reader = FrameReader::new(alloc)?;
            told.push_str(line)?;
        }
        "feed" => frames::one_piece(alloc, reader, &mut told, bytes_of(alloc, text)?.as_slice())?,
        "int" => prims::int(alloc, &mut told, text)?,
        "write-int" => prims::written_int(alloc, &mut told, text)?,
        "huffman" => prims::huffman(alloc, &mut told, text)?,
        "write-huffman" => prims::written_huffman(alloc, &mut told, text)?,
        "each-byte-in-huffman" => prims::each_byte(alloc, &mut told)?,
        _ => play_blocks(alloc, coders, &mut told, line)?,
    }
    Ok(told)
}

// A line about blocks.
fn play_blocks(alloc: Global, coders: &mut Coders, told: &mut String, line: &str) -> Result<()> {
    let (word, text) = line.split_once(' ').unwrap_or((line, ""));
    match word {
        "first-block" => coders.first_block(alloc, told, bytes_of(alloc, text)?.as_slice()),
        "block" => coders.block(alloc, told, bytes_of(alloc, text)?.as_slice()),
        "held" => coders.held(alloc, told),
        "encoder" => {
            coders.begin(alloc)?;
            Ok(told.push_str(line)?)
        }
        "limit" => {
            coders.limit(text.parse::<u32>()?);
            Ok(told.push_str(line)?)
        }
        "write" => coders.write(alloc, told, text),
        "write-and-read" => coders.write_and_read(alloc, told, text),
        _ => bail!("no word of a script: {word}"),
    }
}
