//! The lines of a script.

use crate::cuts::in_every_cut;
use crate::reader::{Reader, push_answer};
use crate::text::{bytes_of, push_fields, push_number};
use crate::write::written;
use anyhow::{Result, bail};
use h1_read::{
    SectionRead, heads_go_on, read_section, request_grammar, response_grammar, section_grammar,
};
use std::alloc::Global;

// The answer to one piece.
fn feed(alloc: Global, reader: &mut Reader, piece: &[u8]) -> Result<String> {
    let mut told = String::new(alloc);
    let (answer, used) = reader.feed(piece)?;
    push_answer(alloc, &mut told, &answer, used)?;
    Ok(told)
}

fn section(alloc: Global, bytes: &[u8]) -> Result<String> {
    if bytes.len() > 1_000_000 {
        bail!("too many bytes");
    }
    let mut told = String::new(alloc);
    match read_section(alloc, bytes)? {
        SectionRead::Whole(trailers, used) => {
            told.push_str("section")?;
            push_fields(&mut told, &trailers)?;
            push_number(alloc, &mut told, " used", u64::from(used))?;
        }
        SectionRead::Partial => told.push_str("open")?,
        SectionRead::Bad => told.push_str("bad")?,
        SectionRead::Long => told.push_str("long")?,
    }
    Ok(told)
}

// The laws of heads and sections, which do nothing.
fn call_laws() {
    heads_go_on();
    request_grammar();
    response_grammar();
    section_grammar();
}

/// What a line tells; it tells itself where there is nothing else to tell.
pub fn line(alloc: Global, reader: &mut Reader, line: &str) -> Result<String> {
    let (word, text) = line.split_once(' ').unwrap_or((line, ""));
    match word {
        "#" => Ok(String::from_str(alloc, line)?),
        "begin" => {
            *reader = Reader::begin(alloc, text)?;
            Ok(String::from_str(alloc, line)?)
        }
        "feed" => feed(alloc, reader, bytes_of(alloc, text)?.as_slice()),
        "held" => Ok(reader.held().to_string(alloc)?),
        "end" => Ok(String::from_str(alloc, reader.end()?)?),
        "section" => section(alloc, bytes_of(alloc, text)?.as_slice()),
        "laws" => {
            call_laws();
            Ok(String::from_str(alloc, line)?)
        }
        "write" => written(alloc, text),
        _ => in_every_cut(alloc, word, bytes_of(alloc, text)?.as_slice()),
    }
}
