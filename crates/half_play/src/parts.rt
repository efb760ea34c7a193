//! What a half hands out.

use crate::text::{push_bytes, push_fields, push_number};
use anyhow::Result;
use ext_msgs::{Ask, FieldList};
use http_model::{Framing, Out};
use std::alloc::Global;

fn push_ask_fields(alloc: Global, told: &mut String, word: &str, fields: &FieldList) -> Result<()> {
    told.push_str(word)?;
    push_fields(alloc, told, fields)
}

fn push_ask_bytes(alloc: Global, told: &mut String, bytes: &[u8]) -> Result<()> {
    told.push_str("ask body ")?;
    push_bytes(alloc, told, bytes)
}

// The flag `end_of_stream`.
fn push_last(told: &mut String, last: bool) -> Result<()> {
    if last {
        told.push_str(", the last")?;
    }
    Ok(())
}

/// Appends an ask.
pub fn push_ask(alloc: Global, told: &mut String, ask: &Ask) -> Result<()> {
    match ask {
        Ask::RequestHeaders(fields, last) | Ask::ResponseHeaders(fields, last) => {
            push_ask_fields(alloc, told, "ask headers", fields)?;
            push_last(told, *last)
        }
        Ask::RequestBody(bytes, last) | Ask::ResponseBody(bytes, last) => {
            push_ask_bytes(alloc, told, bytes.bytes())?;
            push_last(told, *last)
        }
        Ask::RequestTrailers(fields) | Ask::ResponseTrailers(fields) => {
            push_ask_fields(alloc, told, "ask trailers", fields)
        }
    }
}

fn push_framing(alloc: Global, told: &mut String, framing: Framing) -> Result<()> {
    match framing {
        Framing::NoField => told.push_str(", without framing")?,
        Framing::Chunked => told.push_str(", in chunks")?,
        Framing::Length(n) => push_number(alloc, told, ", of length", n)?,
    }
    Ok(())
}

/// Appends a part.
pub fn push_out(alloc: Global, told: &mut String, out: &Out) -> Result<()> {
    match out {
        Out::Head(fields, framing) => {
            told.push_str("head")?;
            push_fields(alloc, told, fields)?;
            push_framing(alloc, told, *framing)
        }
        Out::Data(bytes) => {
            told.push_str("data ")?;
            push_bytes(alloc, told, bytes.bytes())
        }
        Out::Trailers(fields) => {
            told.push_str("trailers")?;
            push_fields(alloc, told, fields)
        }
        Out::End => Ok(told.push_str("end")?),
        Out::Nothing => Ok(told.push_str("nothing")?),
    }
}

/// How many body bytes a part has; none where it is nothing.
pub fn size_of(out: &Out) -> Option<u64> {
    match out {
        Out::Data(bytes) => Some(bytes.len() as u64),
        Out::Head(_, _) | Out::Trailers(_) | Out::End => Some(0),
        Out::Nothing => None,
    }
}
