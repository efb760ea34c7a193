//! Bytes and fields as the script spells them.

use anyhow::{Context, Result, bail};
use ext_msgs::{Field, FieldList};
use pb_wire::Blob;
use std::alloc::Global;

/// The most bytes of a name or a value that are shown.
const SHOWN: usize = 64;

// The bytes of hexadecimal digits.
fn decoded(alloc: Global, digits: &str) -> Result<Vec<u8>> {
    match hex::decode(alloc, digits) {
        Ok(bytes) => Ok(bytes),
        Err(_) => bail!("no bytes: {digits}"),
    }
}

/// The bytes of a text.
pub fn bytes_of(alloc: Global, text: &str) -> Result<Vec<u8>> {
    let mut bytes = Vec::new(alloc);
    for word in text.split_whitespace() {
        let (digits, times) = word.split_once('*').unwrap_or((word, "1"));
        let part = decoded(alloc, digits)?;
        for _ in 0..times.parse::<u32>()? {
            bytes.extend_from_slice(part.as_slice())?;
        }
    }
    Ok(bytes)
}

// A name or a value.
fn blob_of(alloc: Global, text: &str) -> Result<Blob> {
    match text.strip_prefix('%') {
        Some(digits) => Ok(Blob::from_vec(decoded(alloc, digits)?)),
        None => Ok(Blob::of(alloc, text.as_bytes())?),
    }
}

/// The fields of a text.
pub fn fields_of(alloc: Global, text: &str) -> Result<FieldList> {
    let mut fields = FieldList::new(alloc);
    for word in text.split_whitespace() {
        let (name, value) = word.split_once('=').context("no value")?;
        let name = blob_of(alloc, name)?;
        let value = blob_of(alloc, value)?;
        fields.push(Field { name, value })?;
    }
    Ok(fields)
}

/// Appends a word and hexadecimal digits.
pub fn push_hex(alloc: Global, told: &mut String, word: &str, bytes: &[u8]) -> Result<()> {
    told.push_str(word)?;
    told.push(' ')?;
    told.push_str(hex::encode(alloc, bytes)?.as_str())?;
    Ok(())
}

/// Appends a word and a number.
pub fn push_number(alloc: Global, told: &mut String, word: &str, number: u64) -> Result<()> {
    told.push_str(word)?;
    told.push(' ')?;
    told.push_str(number.to_string(alloc)?.as_str())?;
    Ok(())
}

// Appends a name or a value: in digits where it isn't all text, and of a long one how long it is.
fn push_blob(alloc: Global, told: &mut String, blob: &Blob) -> Result<()> {
    if blob.len() > SHOWN {
        return push_number(alloc, told, "bytes", blob.len() as u64);
    }
    if !blob.bytes().iter().all(|byte| byte.is_ascii_graphic()) {
        told.push('%')?;
        told.push_str(hex::encode(alloc, blob.bytes())?.as_str())?;
        return Ok(());
    }
    for byte in blob.bytes() {
        told.push(char::from(*byte))?;
    }
    Ok(())
}

/// Appends fields, a space before each.
pub fn push_fields(alloc: Global, told: &mut String, fields: &FieldList) -> Result<()> {
    for field in fields.as_slice() {
        told.push(' ')?;
        push_blob(alloc, told, &field.name)?;
        told.push('=')?;
        push_blob(alloc, told, &field.value)?;
    }
    Ok(())
}
