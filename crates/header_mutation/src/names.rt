//! The names of header fields: tests in lower case that take no memory.

ghost use Rattle.std.specs.Prelude.{◌≡◌, bytes_eq, nat_eq};
ghost use Rattle.std.specs.List.{starts_with};
ghost use Rattle.http_header.specs.Token.{lowercase};
ghost use Rattle.http_header.specs.FieldName.{is_field_name};
ghost use Rattle.header_mutation.specs.Names.{folded, is_pseudo, is_valid_name, begins_with_any, is_owned, is_routing, has_field};

use ext_msgs::{FieldList, NameList};
use http_header::is_token;

/// The most bytes of a field name.
const LONGEST: usize = 65535;

// The name of a pseudo field begins with `:`.
#[tactic(auto, unfolding(crate::specs::Names::is_pseudo))]
pub(crate) fn is_pseudo(name: &[u8]) -> bool
    ensures { result ≡ is_pseudo name.now }
{
    match name.first() {
        Some(first) => *first == b':',
        None => false,
    }
}

// Whether an item may have this name.
#[tactic(auto, unfolding(crate::specs::Names::is_valid_name))]
pub(crate) fn is_valid_name(name: &[u8]) -> bool
    ensures { result ≡ is_valid_name name.now }
{
    is_pseudo(name) || is_field_name(name)
}

fn is_field_name(name: &[u8]) -> bool
    ensures { result ≡ is_field_name name.now }
{
    name.len() <= LONGEST && is_token(name)
}

// Whether a name is this text, where a name without `:` counts in lower case.
#[tactic(auto, unfolding(crate::specs::Names::folded))]
pub(crate) fn same_name(name: &[u8], text: &[u8]) -> bool
    ensures { result ≡ bytes_eq (folded name.now) text.now }
{
    if is_pseudo(name) {
        return name == text;
    }
    same_lower(name, text)
}

fn same_lower(name: &[u8], text: &[u8]) -> bool
    ensures { result ≡ bytes_eq (lowercase name.now) text.now }
{
    if name.len() != text.len() {
        return false;
    }
    for (i, byte) in name.iter().enumerate() {
        if byte.to_ascii_lowercase() != text[i] {
            return false;
        }
    }
    true
}

// Whether a name begins with this text, where a name without `:` counts in lower case.
#[tactic(auto, unfolding(crate::specs::Names::folded))]
pub(crate) fn begins_with(name: &[u8], text: &[u8]) -> bool
    ensures { result ≡ starts_with nat_eq (folded name.now) text.now }
{
    if is_pseudo(name) {
        return name.starts_with(text);
    }
    begins_lower(name, text)
}

fn begins_lower(name: &[u8], text: &[u8]) -> bool
    ensures { result ≡ starts_with nat_eq (lowercase name.now) text.now }
{
    text.len() <= name.len() && same_lower(&name[..text.len()], text)
}

// Whether a name begins with one of these.
#[tactic(auto, unfolding(crate::specs::Names::begins_with_any))]
pub(crate) fn begins_with_any(name: &[u8], prefixes: &NameList) -> bool
    ensures { result ≡ begins_with_any prefixes.now (folded name.now) }
{
    prefixes
        .as_slice()
        .iter()
        .any(|prefix| begins_with(name, prefix.bytes()))
}

// The names that the proxy itself writes.
#[tactic(auto, unfolding(crate::specs::Names::is_owned, crate::specs::Names::is_among))]
pub(crate) fn is_owned(name: &[u8]) -> bool
    ensures { result ≡ is_owned (folded name.now) }
{
    same_name(name, b"content-length")
        || same_name(name, b"transfer-encoding")
        || same_name(name, b"connection")
        || same_name(name, b"keep-alive")
        || same_name(name, b"proxy-connection")
        || same_name(name, b"te")
        || same_name(name, b"trailer")
        || same_name(name, b"upgrade")
        || same_name(name, b"expect")
}

// The names that choose where a request goes.
#[tactic(auto, unfolding(crate::specs::Names::is_routing, crate::specs::Names::is_among))]
pub(crate) fn is_routing(name: &[u8]) -> bool
    ensures { result ≡ is_routing (folded name.now) }
{
    same_name(name, b"host")
        || same_name(name, b":authority")
        || same_name(name, b":scheme")
        || same_name(name, b":method")
}

// Whether a field has this name.
#[tactic(auto, unfolding(crate::specs::Names::has_field))]
pub(crate) fn has_field(name: &[u8], fields: &FieldList) -> bool
    ensures { result ≡ has_field (folded name.now) fields.now }
{
    fields
        .as_slice()
        .iter()
        .any(|field| same_name(name, field.name.bytes()))
}
