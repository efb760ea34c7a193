//! Chunks: RFC 9112 section 7.1.

ghost use Rattle.std.specs.Prelude.{◌≡◌, ◌++◌, ◌<◌, ◌≤◌, length, IfOk, OnOk};
ghost use Rattle.http_model.specs.Wire.{hex, hex_digit as glyph, chunk_bytes as chunk, last_bytes as last};

use crate::fields::push_all;
use ext_msgs::FieldList;
use pb_wire::Blob;
use std::alloc::{AllocError, Global};

fn hex_digit(n: u64) -> u8
    requires { n < 16 }
    ensures { result ≡ glyph n }
{
    if n < 10 {
        b'0' + n as u8
    } else {
        b'a' - 10 + n as u8
    }
}

// Appends a number in lower-case hexadecimal, without leading zeros.
#[tactic(auto, using(crate::proofs::Digits::one_digit, crate::proofs::Digits::more_digits))]
fn push_hex(out: &mut Vec<u8>, n: u64) -> Result<(), AllocError>
    ensures { OnOk result (out.new.items ≡ out.old.items ++ hex n) }
{
    if n < 16 {
        out.push(hex_digit(n))?;
        return Ok(());
    }
    push_hex(out, n / 16)?;
    out.push(hex_digit(n % 16))?;
    Ok(())
}

/// A piece of a body as one chunk. An empty piece is no chunk but the mark of the end, so it isn't handed over.
#[tactic(auto, unfolding(http_model::specs::Wire::chunk_bytes))]
pub fn chunk_bytes(alloc: Global, piece: &[u8]) -> Result<Blob, AllocError>
    requires { 0 < length piece.now }
    ensures { IfOk result (λ blob. blob ≡ chunk piece.now) }
{
    let mut out = Vec::new(alloc);
    push_hex(&mut out, piece.len() as u64)?;
    out.extend_from_slice(b"\r\n")?;
    out.extend_from_slice(piece)?;
    out.extend_from_slice(b"\r\n")?;
    Ok(Blob::from_vec(out))
}

/// The last chunk, the trailer section and the end of the message.
#[tactic(auto, unfolding(http_model::specs::Wire::last_bytes))]
pub fn last_bytes(alloc: Global, trailers: &FieldList) -> Result<Blob, AllocError>
    ensures { IfOk result (λ blob. blob ≡ last trailers.now) }
{
    let mut out = Vec::new(alloc);
    out.extend_from_slice(b"0\r\n")?;
    push_all(&mut out, trailers)?;
    out.extend_from_slice(b"\r\n")?;
    Ok(Blob::from_vec(out))
}
