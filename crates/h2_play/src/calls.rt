//! Lines that call an end.

use crate::end::End;
use crate::text::{add, add_bytes, bytes_of};
use anyhow::{Context, Result, bail};
use std::alloc::Global;

/// The most calls that give what goes out.
const MOST: usize = 1_000_000;

// Writes what goes out, in calls that give so many bytes at most.
fn out(alloc: Global, end: &mut End, told: &mut String, most: usize) -> Result<()> {
    let mut bytes = Vec::new(alloc);
    for _ in 0..MOST {
        if end.take(&mut bytes, most)? == 0 {
            told.push_str("out ")?;
            return add_bytes(alloc, told, bytes.as_slice());
        }
    }
    bail!("too many bytes go out")
}

// Writes what one call gives.
fn take(alloc: Global, end: &mut End, told: &mut String, most: usize) -> Result<()> {
    let mut bytes = Vec::new(alloc);
    end.take(&mut bytes, most)?;
    told.push_str("out ")?;
    add_bytes(alloc, told, bytes.as_slice())
}

// Hands bytes over.
fn send(alloc: Global, end: &mut End, told: &mut String, text: &str) -> Result<()> {
    let (id, bytes) = text.split_once(' ').context("no bytes")?;
    let taken = end.send(id.parse::<u32>()?, bytes_of(alloc, bytes)?.as_slice())?;
    add(alloc, told, "taken ", u64::from(taken))
}

// A call with the number of a stream and a second number.
fn with_two(alloc: Global, end: &mut End, word: &str, text: &str) -> Result<()> {
    let (id, second) = text.split_once(' ').unwrap_or((text, "0"));
    let (id, second) = (id.parse::<u32>()?, second.parse::<u32>()?);
    match word {
        "head" => end.head(alloc, id, second, false),
        "last-head" => end.head(alloc, id, second, true),
        "finish" => end.finish(id),
        "reset" => end.reset(id, second),
        _ => bail!("no word of a script: {word}"),
    }
}

// What an end says of a stream.
fn ask(alloc: Global, end: &End, told: &mut String, word: &str, id: u32) -> Result<()> {
    match word {
        "window" => {
            told.push_str("window ")?;
            told.push_str(end.window(id)?.to_string(alloc)?.as_str())?;
            Ok(())
        }
        "waiting" => add(alloc, told, "waiting ", end.waiting(id)),
        _ if end.waits(id) => Ok(told.push_str("waits")?),
        _ => Ok(told.push_str("waits for nothing")?),
    }
}

/// Calls an end, and writes what it answers.
pub fn call(alloc: Global, end: &mut End, told: &mut String, line: &str) -> Result<()> {
    let (word, rest) = line.split_once(' ').unwrap_or((line, ""));
    match word {
        "#" => told.push_str(line)?,
        "out" if rest.is_empty() => out(alloc, end, told, 64)?,
        "out" => out(alloc, end, told, rest.parse::<usize>()?)?,
        "take" => take(alloc, end, told, rest.parse::<usize>()?)?,
        "send" => send(alloc, end, told, rest)?,
        "control" => add(alloc, told, "control ", end.control())?,
        "window" | "waiting" | "waits" => ask(alloc, end, told, word, rest.parse::<u32>()?)?,
        _ => return with_two(alloc, end, word, rest),
    }
    told.push('\n')?;
    Ok(())
}
