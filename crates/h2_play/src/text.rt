//! Bytes and numbers as the script spells them.

use anyhow::{Result, bail};
use std::alloc::Global;

/// Of more bytes than these only the first and the last are written.
const MANY: usize = 4096;

/// The bytes of hexadecimal digits, behind which may stand how often they come.
pub fn bytes_of(alloc: Global, text: &str) -> Result<Vec<u8>> {
    let (digits, times) = text.split_once(' ').unwrap_or((text, "1"));
    let Ok(once) = hex::decode(alloc, digits) else {
        bail!("no bytes: {digits}");
    };
    let mut bytes = Vec::new(alloc);
    for _ in 0..times.parse::<u32>()? {
        bytes.extend_from_slice(once.as_slice())?;
    }
    Ok(bytes)
}

/// Appends a word and a number.
pub fn add(alloc: Global, told: &mut String, word: &str, number: u64) -> Result<()> {
    told.push_str(word)?;
    told.push_str(number.to_string(alloc)?.as_str())?;
    Ok(())
}

/// The words for whether something ends a stream.
pub fn last_word(last: bool) -> &'static str {
    if last { " last true" } else { " last false" }
}

/// Appends bytes as digits.
pub fn add_bytes(alloc: Global, told: &mut String, bytes: &[u8]) -> Result<()> {
    if bytes.len() <= MANY {
        told.push_str(hex::encode(alloc, bytes)?.as_str())?;
        return Ok(());
    }
    let (first, _) = bytes.split_at(16);
    let (_, last) = bytes.split_at(bytes.len() - 16);
    told.push_str(hex::encode(alloc, first)?.as_str())?;
    told.push_str("..")?;
    told.push_str(hex::encode(alloc, last)?.as_str())?;
    add(alloc, told, " of ", bytes.len() as u64)
}
