//! Tests of texts in any case, and the blanks around a text.

ghost use Rattle.std.specs.Prelude.{◌≡◌, bytes_eq, IfOk};
ghost use Rattle.http_model.specs.Bytes.{is_blank as blank, lower_byte as lowered, lower, begins_with, trim_start as trimmed_start, trim_end as trimmed_end, trim as trimmed};

use pb_wire::Blob;
use std::alloc::{AllocError, Global};

fn lower_byte(b: u8) -> u8
    ensures { result ≡ lowered b }
{
    if b'A' <= b && b <= b'Z' { b + 32 } else { b }
}

/// A copy in lower case.
pub fn lower_copy(alloc: Global, text: &[u8]) -> Result<Blob, AllocError>
    ensures { IfOk result (λ blob. blob ≡ lower text.now) }
{
    let mut out = Vec::new(alloc);
    for b in text {
        out.push(lower_byte(*b))?;
    }
    Ok(Blob::from_vec(out))
}

/// Whether a text is this one in lower case.
#[tactic(auto, using(crate::proofs::TextTests::same_next, crate::proofs::TextTests::differs_here, crate::proofs::TextTests::same_end, crate::proofs::TextTests::other_length))]
pub fn is_lower(text: &[u8], lower_text: &[u8]) -> bool
    ensures { result ≡ bytes_eq (lower text.now) lower_text.now }
{
    if text.len() != lower_text.len() {
        return false;
    }
    for i in 0..text.len() {
        if lower_byte(text[i]) != lower_text[i] {
            return false;
        }
    }
    true
}

fn is_blank(b: u8) -> bool
    ensures { result ≡ blank b }
{
    b == b' ' || b == b'\t'
}

// Without the blanks at the start.
#[tactic(auto, using(crate::proofs::TextTests::start_next, crate::proofs::TextTests::start_here, crate::proofs::TextTests::start_none))]
fn trim_start(text: &[u8]) -> &[u8]
    ensures { result.now ≡ trimmed_start text.now }
{
    for i in 0..text.len() {
        if !is_blank(text[i]) {
            return &text[i..];
        }
    }
    &text[text.len()..]
}

// Without the blanks at the end.
#[tactic(auto, using(crate::proofs::TextTests::end_before, crate::proofs::TextTests::end_here))]
fn trim_end(text: &[u8]) -> &[u8]
    ensures { result.now ≡ trimmed_end text.now }
{
    let mut len = text.len();
    while len > 0 {
        if !is_blank(text[len - 1]) {
            return &text[..len];
        }
        len -= 1;
    }
    &text[..0]
}

/// Without the blanks at both ends.
pub fn trim(text: &[u8]) -> &[u8]
    ensures { result.now ≡ trimmed text.now }
{
    trim_end(trim_start(text))
}
