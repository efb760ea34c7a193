//! The operands of a line.

ghost use Rattle.std.specs.Prelude.{◌<◌, ◌^◌, IfOk, vec_len};

use anyhow::{Result, bail};
use pb_wire::Blob;
use std::alloc::Global;
use std::str;

/// The most bytes of an operand.
const MOST: usize = 1_000_000;

/// The bytes of hexadecimal digits.
pub fn bytes(alloc: Global, digits: &str) -> Result<Vec<u8>>
    ensures { IfOk result (λ bytes. vec_len bytes < 2 ^ 32) }
{
    let Ok(bytes) = hex::decode(alloc, digits) else {
        bail!("no bytes: {digits}");
    };
    if bytes.len() > MOST {
        bail!("too many bytes");
    }
    Ok(bytes)
}

/// The text of a word, in which `_` stands for a blank and `^` for a tab.
pub fn text(alloc: Global, word: &str) -> Result<Blob> {
    let mut bytes = Vec::new(alloc);
    for byte in word.bytes() {
        bytes.push(match byte {
            b'_' => b' ',
            b'^' => b'\t',
            _ => byte,
        })?;
    }
    Ok(Blob::from_vec(bytes))
}

/// The name and the value of `NAME=VALUE`.
pub fn pair(alloc: Global, word: &str) -> Result<(Blob, Blob)> {
    let (name, value) = word.split_once('=').unwrap_or((word, ""));
    let name = text(alloc, name)?;
    let value = text(alloc, value)?;
    Ok((name, value))
}

/// Bytes as text.
pub fn shown(blob: &Blob) -> Result<&str> {
    match str::from_utf8(blob.bytes()) {
        Ok(text) => Ok(text),
        Err(_) => bail!("bytes that aren't text"),
    }
}
