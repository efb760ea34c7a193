//! Bytes and fields as the script spells them.

use anyhow::{Context, Result, bail};
use ext_msgs::{Field, FieldList};
use pb_wire::Blob;
use std::alloc::Global;

/// The most bytes of a text.
const MOST: usize = 1_000_000;

// The byte that a letter behind a backslash stands for.
fn escaped(letter: u8) -> u8 {
    match letter {
        b'r' => b'\r',
        b'n' => b'\n',
        b't' => b'\t',
        b's' => b' ',
        b'0' => 0,
        _ => letter,
    }
}

// Appends the bytes of a text without repeated parts.
fn push_plain(bytes: &mut Vec<u8>, text: &str) -> Result<()> {
    let mut is_escaped = false;
    for byte in text.bytes() {
        if is_escaped {
            bytes.push(escaped(byte))?;
            is_escaped = false;
        } else if byte == b'\\' {
            is_escaped = true;
        } else {
            bytes.push(byte)?;
        }
    }
    Ok(())
}

/// The bytes of a text.
pub fn bytes_of(alloc: Global, text: &str) -> Result<Vec<u8>> {
    let mut bytes = Vec::new(alloc);
    let Some((before, rest)) = text.split_once('<') else {
        push_plain(&mut bytes, text)?;
        return Ok(bytes);
    };
    let (times, rest) = rest.split_once(' ').context("no number of times")?;
    let (part, behind) = rest.split_once('>').context("no end of a part")?;
    push_plain(&mut bytes, before)?;
    for _ in 0..times.parse::<u32>()? {
        push_plain(&mut bytes, part)?;
    }
    push_plain(&mut bytes, behind)?;
    if bytes.len() > MOST {
        bail!("too many bytes");
    }
    Ok(bytes)
}

/// The fields of a text.
pub fn fields_of(alloc: Global, text: &str) -> Result<FieldList> {
    let mut fields = FieldList::new(alloc);
    for word in text.split_whitespace() {
        let (name, value) = word.split_once('=').context("no value")?;
        let name = Blob::of(alloc, name.as_bytes())?;
        let value = Blob::of(alloc, value.as_bytes())?;
        fields.push(Field { name, value })?;
    }
    Ok(fields)
}

/// Appends bytes as a text spells them.
pub fn push_bytes(told: &mut String, bytes: &[u8]) -> Result<()> {
    for byte in bytes {
        match byte {
            b'\r' => told.push_str("\\r")?,
            b'\n' => told.push_str("\\n")?,
            _ => told.push(char::from(*byte))?,
        }
    }
    Ok(())
}

/// Appends a number behind a word and a space.
pub fn push_number(alloc: Global, told: &mut String, word: &str, number: u64) -> Result<()> {
    told.push_str(word)?;
    told.push(' ')?;
    told.push_str(number.to_string(alloc)?.as_str())?;
    Ok(())
}

/// Appends fields, a space before each.
pub fn push_fields(told: &mut String, fields: &FieldList) -> Result<()> {
    for field in fields.as_slice() {
        told.push(' ')?;
        push_bytes(told, field.name.bytes())?;
        told.push('=')?;
        push_bytes(told, field.value.bytes())?;
    }
    Ok(())
}
