//! Bytes and fields as the script spells them.

use anyhow::{Context, Result, bail};
use ext_msgs::{Field, FieldList};
use pb_wire::Blob;
use std::alloc::Global;

/// The most bytes of a text.
const MOST: usize = 1_000_000;

/// So many same bytes are told by their number.
const RUN: u32 = 8;

/// The bytes of a text.
pub fn bytes_of(alloc: Global, text: &str) -> Result<Vec<u8>> {
    let mut bytes = Vec::new(alloc);
    let Some((before, rest)) = text.split_once('<') else {
        bytes.extend_from_slice(text.as_bytes())?;
        return Ok(bytes);
    };
    let (times, rest) = rest.split_once(' ').context("no number of times")?;
    let (part, behind) = rest.split_once('>').context("no end of a part")?;
    bytes.extend_from_slice(before.as_bytes())?;
    for _ in 0..times.parse::<u32>()? {
        bytes.extend_from_slice(part.as_bytes())?;
    }
    bytes.extend_from_slice(behind.as_bytes())?;
    if bytes.len() > MOST {
        bail!("too many bytes");
    }
    Ok(bytes)
}

/// `NAME=VALUE`
pub fn field_of(alloc: Global, word: &str) -> Result<Field> {
    let (name, value) = word.split_once('=').context("no value")?;
    let name = Blob::of(alloc, name.as_bytes())?;
    let value = Blob::of(alloc, value.as_bytes())?;
    Ok(Field { name, value })
}

/// The fields of a text.
pub fn fields_of(alloc: Global, text: &str) -> Result<FieldList> {
    let mut fields = FieldList::new(alloc);
    for word in text.split_whitespace() {
        fields.push(field_of(alloc, word)?)?;
    }
    Ok(fields)
}

/// Appends a number behind a word and a space.
pub fn push_number(alloc: Global, told: &mut String, word: &str, number: u64) -> Result<()> {
    told.push_str(word)?;
    told.push(' ')?;
    told.push_str(number.to_string(alloc)?.as_str())?;
    Ok(())
}

// Appends a byte so many times.
fn push_run(alloc: Global, told: &mut String, byte: u8, times: u32) -> Result<()> {
    if times >= RUN {
        told.push('<')?;
        told.push_str(times.to_string(alloc)?.as_str())?;
        told.push(' ')?;
        told.push(char::from(byte))?;
        told.push('>')?;
        return Ok(());
    }
    for _ in 0..times {
        told.push(char::from(byte))?;
    }
    Ok(())
}

/// Appends bytes as a text spells them.
pub fn push_bytes(alloc: Global, told: &mut String, bytes: &[u8]) -> Result<()> {
    let mut last: u8 = 0;
    let mut times: u32 = 0;
    for byte in bytes {
        if *byte != last {
            push_run(alloc, told, last, times)?;
            times = 0;
        }
        last = *byte;
        times = times.saturating_add(1);
    }
    push_run(alloc, told, last, times)
}

/// Appends fields, a space before each.
pub fn push_fields(alloc: Global, told: &mut String, fields: &FieldList) -> Result<()> {
    for field in fields.as_slice() {
        told.push(' ')?;
        push_bytes(alloc, told, field.name.bytes())?;
        told.push('=')?;
        push_bytes(alloc, told, field.value.bytes())?;
    }
    Ok(())
}
