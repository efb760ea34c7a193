//! The lines of a script.

use crate::calls::call;
use crate::end::End;
use crate::text::{add, bytes_of, last_word};
use anyhow::{Result, bail};
use h2_session::Event;
use std::alloc::Global;

/// The most events that bytes bring, and the most calls that give what goes out.
const MOST: usize = 1_000_000;

/// How many bytes of content are written.
const SHOWN: usize = 16;

// The end that a line begins.
fn begun(alloc: Global, word: &str) -> Result<Option<End>> {
    match word {
        "server" => Ok(Some(skip(alloc, End::server(alloc)?)?)),
        "client" => Ok(Some(skip(alloc, asking(alloc)?)?)),
        "new-server" => Ok(Some(End::server(alloc)?)),
        "new-client" => Ok(Some(End::client(alloc)?)),
        "opened" => Ok(Some(End::opened(alloc)?)),
        _ => Ok(None),
    }
}

/// The end behind a line, and the lines that it writes.
pub fn line(alloc: Global, end: End, line: &str) -> Result<(End, String)> {
    let mut told = String::new(alloc);
    let (word, rest) = line.split_once(' ').unwrap_or((line, ""));
    if let Some(new) = begun(alloc, word)? {
        return Ok((new, told));
    }
    if word == "in" {
        let bytes = bytes_of(alloc, rest)?;
        let end = give(alloc, end, &mut told, bytes.as_slice())?;
        return Ok((end, told));
    }
    let mut end = end;
    call(alloc, &mut end, &mut told, line)?;
    Ok((end, told))
}

// A client's end that handed two requests over, of which the bodies go on.
fn asking(alloc: Global) -> Result<End> {
    let mut end = End::opened(alloc)?;
    end.head(alloc, 1, 0, false)?;
    end.head(alloc, 3, 0, false)?;
    Ok(end)
}

// What goes out at first isn't written.
fn skip(alloc: Global, end: End) -> Result<End> {
    let mut end = end;
    let mut out = Vec::new(alloc);
    for _ in 0..MOST {
        if end.take(&mut out, 64)? == 0 {
            return Ok(end);
        }
    }
    bail!("too many bytes go out")
}

// Gives bytes to an end, and writes what they bring.
fn give(alloc: Global, end: End, told: &mut String, bytes: &[u8]) -> Result<End> {
    let mut end = end;
    let mut rest = bytes;
    for _ in 0..MOST {
        let (behind, brought) = end.feed(rest)?;
        end = behind;
        match brought {
            Ok(fed) => {
                if !tell(alloc, told, fed.event)? {
                    return Ok(end);
                }
                let (_, behind) = rest.split_at((fed.used as usize).min(rest.len()));
                rest = behind;
            }
            Err(code) => {
                add(alloc, told, "refused ", u64::from(code))?;
                told.push('\n')?;
                return Ok(end);
            }
        }
    }
    bail!("too many events")
}

// Writes an event, and says whether it is one.
fn tell(alloc: Global, told: &mut String, event: Event) -> Result<bool> {
    match event {
        Event::Nothing => return Ok(false),
        Event::Head(id, fields, last) => {
            add(alloc, told, "head ", u64::from(id))?;
            add(alloc, told, " fields ", fields.len())?;
            told.push_str(last_word(last))?;
        }
        Event::Data(id, content, last) => {
            add(alloc, told, "data ", u64::from(id))?;
            let (first, _) = content.bytes().split_at(content.len().min(SHOWN));
            told.push(' ')?;
            told.push_str(hex::encode(alloc, first)?.as_str())?;
            add(alloc, told, " of ", content.len() as u64)?;
            told.push_str(last_word(last))?;
        }
        Event::Reset(id, code) => pair(alloc, told, "reset ", id, code)?,
        Event::GoAway(last, code) => pair(alloc, told, "goaway ", last, code)?,
    }
    told.push('\n')?;
    Ok(true)
}

fn pair(alloc: Global, told: &mut String, word: &str, first: u32, second: u32) -> Result<()> {
    add(alloc, told, word, u64::from(first))?;
    add(alloc, told, " ", u64::from(second))
}
