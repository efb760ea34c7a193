//! The operands of lines.

use anyhow::{Result, bail};
use ext_msgs::{Field, FieldList};
use pb_wire::Blob;
use std::alloc::Global;

/// The bytes of hexadecimal digits.
pub fn bytes_of(alloc: Global, digits: &str) -> Result<Vec<u8>> {
    match hex::decode(alloc, digits) {
        Ok(bytes) => Ok(bytes),
        Err(_) => bail!("no bytes: {digits}"),
    }
}

/// The fields of `NAME=VALUE ..`. A name may begin with a colon.
pub fn fields_of(alloc: Global, words: &str) -> Result<FieldList> {
    let mut fields = FieldList::new(alloc);
    for word in words.split(' ') {
        if let Some((name, value)) = word.split_once('=') {
            let name = Blob::of(alloc, name.as_bytes())?;
            let value = Blob::of(alloc, value.as_bytes())?;
            fields.push(Field { name, value })?;
        }
    }
    Ok(fields)
}
