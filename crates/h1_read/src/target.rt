//! The target of a request: RFC 9112 section 3.2.

ghost use Rattle.std.specs.Prelude.{◌≡◌, ◌≤◌, length, take, drop, true, false, IfNone, IfSome, IfOk};
ghost use Rattle.h1_read.specs.Targets.{absolute};
ghost use Rattle.http_model.specs.Bytes.{lower, begins_with};
ghost use Rattle.http_model.specs.Heads.{path_behind as path_of, is_authority_byte as authority_byte, span, target_parts as parts_of};

use crate::scan::behind;
use crate::text::is_lower;
use pb_wire::Blob;
use std::alloc::{AllocError, Global};

// What stands behind a text at the front, in any case.
#[tactic(auto, using(crate::proofs::TargetForms::too_short, crate::proofs::TargetForms::begins_lower))]
fn behind_text<'a>(text: &'a [u8], lower_text: &[u8]) -> Option<&'a [u8]>
    ensures none { IfNone result (begins_with lower_text.now (lower text.now) ≡ false) }
    ensures some { IfSome result (λ rest. (begins_with lower_text.now (lower text.now) ≡ true)
        × (rest.now ≡ drop (length lower_text.now) text.now)) }
{
    if text.len() < lower_text.len() {
        return None;
    }
    if !is_lower(&text[..lower_text.len()], lower_text) {
        return None;
    }
    Some(behind(text, lower_text.len()))
}

fn is_authority_byte(b: u8) -> bool
    ensures { result ≡ authority_byte b }
{
    b'!' <= b && b <= b'~' && !(b == b'/' || b == b'?' || b == b'#')
}

// How many bytes at the front belong to an authority.
#[tactic(auto, using(crate::proofs::TargetForms::starts, crate::proofs::TargetForms::span_next, crate::proofs::TargetForms::span_here, crate::proofs::TargetForms::span_none))]
fn authority_len(bytes: &[u8]) -> usize
    ensures in_range { result ≤ length bytes.now }
    ensures parts { span authority_byte bytes.now ≡ (take result bytes.now, drop result bytes.now) }
{
    for i in 0..bytes.len() {
        if !is_authority_byte(bytes[i]) {
            return i;
        }
    }
    bytes.len()
}

// The path and the query behind an authority.
fn path_behind(alloc: Global, method: &[u8], bytes: &[u8]) -> Result<Option<Blob>, AllocError>
    ensures { IfOk result (λ o. o ≡ path_of method.now bytes.now) }
{
    let Some(first) = bytes.first() else {
        if method == b"OPTIONS".as_slice() {
            return Ok(Some(Blob::of(alloc, b"*")?));
        }
        return Ok(Some(Blob::of(alloc, b"/")?));
    };
    if *first == b'/' {
        return Ok(Some(Blob::of(alloc, bytes)?));
    }
    if *first == b'?' {
        let mut path = Vec::new(alloc);
        path.push(b'/')?;
        path.extend_from_slice(bytes)?;
        return Ok(Some(Blob::from_vec(path)));
    }
    Ok(None)
}

// The authority and the path of a target in absolute form, behind `http://`.
fn absolute_parts(
    alloc: Global,
    method: &[u8],
    bytes: &[u8],
) -> Result<Option<(Blob, Blob)>, AllocError>
    ensures { IfOk result (λ o. o ≡ absolute method.now bytes.now) }
{
    let len = authority_len(bytes);
    let Some(path) = path_behind(alloc, method, behind(bytes, len))? else {
        return Ok(None);
    };
    if len == 0 {
        return Ok(None);
    }
    let authority = Blob::of(alloc, &bytes[..len])?;
    Ok(Some((authority, path)))
}

/// The authority and the path of a target; `None` where it is in none of the forms that are taken.
#[tactic(auto, unfolding(http_model::specs::Heads::target_parts))]
pub fn target_parts(
    alloc: Global,
    method: &[u8],
    host: &[u8],
    target: &[u8],
) -> Result<Option<(Blob, Blob)>, AllocError>
    ensures { IfOk result (λ o. o ≡ parts_of method.now host.now target.now) }
{
    if let Some(rest) = behind_text(target, b"http://") {
        return absolute_parts(alloc, method, rest);
    }
    if target.starts_with(b"/") || (target == b"*".as_slice() && method == b"OPTIONS".as_slice()) {
        let authority = Blob::of(alloc, host)?;
        let path = Blob::of(alloc, target)?;
        return Ok(Some((authority, path)));
    }
    Ok(None)
}
