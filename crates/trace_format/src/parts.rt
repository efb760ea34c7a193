//! The words of a line.

ghost use Rattle.std.specs.Prelude.{◌≡◌, ℕ, List, ◌≤◌, length, option_copied, IfOk, IfSome, MatchOption};
ghost use Rattle.hex.specs.Hex.{decode_of};
ghost use Rattle.trace_format.specs.Lines.{parted as split_at_space, bytes_of};

use hex::FromHexError;
use pb_wire::Blob;
use std::alloc::{AllocError, Global};

/// What stands before the first space, and what follows it where there is one.
pub fn parted(text: &[u8]) -> (&[u8], Option<&[u8]>)
    ensures before { result.0.now ≡ (split_at_space text.now).0 }
    ensures behind { option_copied result.1 ≡ (split_at_space text.now).1 }
{
    for i in 0..text.len() {
        if text[i] == b' ' {
            let (before, rest) = text.split_at(i);
            let (_, behind) = rest.split_at(1);
            return (before, Some(behind));
        }
    }
    (text, None)
}

// What `hex` decodes, where it does.
fn decoded(alloc: Global, digits: &[u8]) -> Result<Option<Vec<u8>>, AllocError>
    ensures { IfOk result (λ o. MatchOption o ((bytes : List ℕ) → decode_of digits.now ≡ Ok bytes
        → ⊥) (λ v. decode_of digits.now ≡ Ok v.items)) }
{
    match hex::decode(alloc, digits) {
        Ok(bytes) => Ok(Some(bytes)),
        Err(FromHexError::OutOfMemory) => Err(AllocError),
        Err(_) => Ok(None),
    }
}

/// The bytes of hexadecimal digits of either case: an even number of them, and not 0. Nothing where they aren't such
/// digits.
pub fn read_hex(alloc: Global, digits: &[u8]) -> Result<Option<Blob>, AllocError>
    ensures read { IfOk result (λ o. o ≡ bytes_of digits.now) }
    ensures short { IfOk result (λ o. IfSome o (λ b. length b ≤ length digits.now)) }
{
    if digits.is_empty() {
        return Ok(None);
    }
    match decoded(alloc, digits)? {
        Some(bytes) => Ok(Some(Blob::from_vec(bytes))),
        None => Ok(None),
    }
}
