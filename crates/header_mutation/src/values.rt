//! The values that a mutation may set.

ghost use Rattle.std.specs.Prelude.{◌≡◌};
ghost use Rattle.header_mutation.specs.Values.{is_valid_value, is_text, is_visible, is_method, is_scheme, is_authority, is_path, is_status, trim_start, trim_end, trim, is_blank};
ghost use Rattle.header_mutation.specs.Names.{folded};

use crate::names::same_name;
use http_header::is_token;

// Whether the field of this name, which counts in lower case, may have this value.
#[tactic(auto, unfolding(crate::specs::Values::is_valid_value))]
pub(crate) fn is_valid_value(name: &[u8], value: &[u8]) -> bool
    ensures { result ≡ is_valid_value (folded name.now) value.now }
{
    if !is_text(value) {
        return false;
    }
    if same_name(name, b":method") {
        is_method(value)
    } else if same_name(name, b":scheme") {
        is_scheme(value)
    } else if same_name(name, b":authority") {
        is_authority(value)
    } else if same_name(name, b":path") {
        is_path(value)
    } else if same_name(name, b":status") {
        is_status(value)
    } else {
        true
    }
}

// Tabs, and bytes from 0x20 to 0x7e and from 0x80 to 0xff.
#[tactic(auto, unfolding(crate::specs::Values::is_text))]
fn is_text(value: &[u8]) -> bool
    ensures { result ≡ is_text value.now }
{
    value
        .iter()
        .all(|byte| *byte == b'\t' || (*byte >= 0x20 && *byte != 0x7f))
}

// Bytes from 0x21 to 0x7e.
#[tactic(auto, unfolding(crate::specs::Values::is_visible))]
fn is_visible(value: &[u8]) -> bool
    ensures { result ≡ is_visible value.now }
{
    value.iter().all(|byte| *byte >= 0x21 && *byte <= 0x7e)
}

// A token of RFC 9110.
fn is_method(value: &[u8]) -> bool
    ensures { result ≡ is_method value.now }
{
    is_token(value)
}

#[tactic(auto, unfolding(crate::specs::Values::is_scheme))]
fn is_scheme(value: &[u8]) -> bool
    ensures { result ≡ is_scheme value.now }
{
    value == b"http".as_slice() || value == b"https".as_slice()
}

#[tactic(auto, unfolding(crate::specs::Values::is_authority))]
fn is_authority(value: &[u8]) -> bool
    ensures { result ≡ is_authority value.now }
{
    !value.is_empty() && is_visible(value)
}

// `*`, or `/` and then visible bytes.
#[tactic(auto, unfolding(crate::specs::Values::is_path))]
fn is_path(value: &[u8]) -> bool
    ensures { result ≡ is_path value.now }
{
    match value.split_first() {
        Some((first, rest)) => {
            (*first == b'*' && rest.is_empty()) || (*first == b'/' && is_visible(rest))
        }
        None => false,
    }
}

// Three digits from 200 to 599.
#[tactic(auto, unfolding(crate::specs::Values::is_status))]
fn is_status(value: &[u8]) -> bool
    ensures { result ≡ is_status value.now }
{
    match value {
        [b'2'..=b'5', b'0'..=b'9', b'0'..=b'9'] => true,
        _ => false,
    }
}

fn is_blank(byte: u8) -> bool
    ensures { result ≡ is_blank byte }
{
    byte == b' ' || byte == b'\t'
}

/// The value without spaces and tabs at its ends.
#[tactic(auto, unfolding(crate::specs::Values::trim))]
pub(crate) fn trim(value: &[u8]) -> &[u8]
    ensures { result.now ≡ trim value.now }
{
    trim_end(trim_start(value))
}

#[tactic(auto, unfolding(crate::specs::Values::trim_start))]
fn trim_start(value: &[u8]) -> &[u8]
    ensures { result.now ≡ trim_start value.now }
{
    let mut rest = value;
    'blanks: loop {
        match rest.split_first() {
            Some((first, others)) if is_blank(*first) => rest = others,
            _ => return rest,
        }
    }
}

#[tactic(auto, unfolding(crate::specs::Values::trim_end, crate::specs::Values::trim_start))]
fn trim_end(value: &[u8]) -> &[u8]
    ensures { result.now ≡ trim_end value.now }
{
    let mut rest = value;
    'blanks: loop {
        match rest.split_last() {
            Some((last, others)) if is_blank(*last) => rest = others,
            _ => return rest,
        }
    }
}
