//! What is written.

use crate::text::{bytes_of, fields_of, push_bytes};
use anyhow::{Context, Result, bail};
use h1_write::{chunk_bytes, last_bytes, request_bytes, response_bytes};
use http_model::Framing;
use pb_wire::Blob;
use std::alloc::Global;

fn framing_of(word: &str) -> Result<Framing> {
    match word {
        "none" => Ok(Framing::NoField),
        "chunked" => Ok(Framing::Chunked),
        _ => Ok(Framing::Length(word.parse::<u64>()?)),
    }
}

// The head that a line writes.
fn head(alloc: Global, is_request: bool, text: &str) -> Result<Blob> {
    let (word, fields) = text.split_once(' ').context("no framing")?;
    let framing = framing_of(word)?;
    let fields = fields_of(alloc, fields)?;
    if is_request {
        Ok(request_bytes(alloc, &fields, framing)?)
    } else {
        Ok(response_bytes(alloc, &fields, framing)?)
    }
}

fn chunk(alloc: Global, text: &str) -> Result<Blob> {
    let piece = bytes_of(alloc, text)?;
    if piece.is_empty() {
        bail!("an empty chunk");
    }
    Ok(chunk_bytes(alloc, piece.as_slice())?)
}

/// The bytes that a line writes.
pub fn written(alloc: Global, line: &str) -> Result<String> {
    let (word, text) = line.split_once(' ').unwrap_or((line, ""));
    let bytes = match word {
        "request" => head(alloc, true, text)?,
        "response" => head(alloc, false, text)?,
        "chunk" => chunk(alloc, text)?,
        "last" => last_bytes(alloc, &fields_of(alloc, text)?)?,
        _ => bail!("nothing to write: {word}"),
    };
    let mut told = String::new(alloc);
    push_bytes(&mut told, bytes.bytes())?;
    Ok(told)
}
