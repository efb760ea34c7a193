//! The framing that a head states itself, which goes on with a response that can have no body.

ghost use Rattle.std.specs.Prelude.{◌≡◌, min, codes};
ghost use Rattle.http_model.specs.Bytes.{decimal_value, is_named as named};
ghost use Rattle.filter_model.specs.Course.{own_length, has_status};
ghost use Rattle.half_machine.specs.Stands.{own_framing};

use ext_msgs::{Field, FieldList};
use http_model::Framing;

// A number that 64 bits don't hold counts as the greatest that they do.
fn number(value: &[u8]) -> u64
    ensures { result ≡ min (decimal_value value.now) 18_446_744_073_709_551_615 }
{
    let mut n = 0u64;
    'digits: for i in 0..value.len() {
        let digit = u64::from(value[i].saturating_sub(b'0'));
        n = n.saturating_mul(10).saturating_add(digit);
    }
    n
}

fn is_named(field: &Field, name: &[u8]) -> bool
    ensures { result ≡ named name.now field.now }
{
    field.name.bytes() == name
}

#[tactic(auto, using(crate::proofs::Owned::length_at, crate::proofs::Owned::length_behind, crate::proofs::Owned::no_length))]
fn own_length(head: &FieldList) -> Framing
    ensures { result ≡ own_length head.now }
{
    for field in head.as_slice() {
        if is_named(field, b"content-length") {
            return Framing::Length(number(field.value.bytes()));
        }
    }
    Framing::NoField
}

#[tactic(auto, using(crate::proofs::Owned::status_at, crate::proofs::Owned::status_behind))]
fn is_no_content(head: &FieldList) -> bool
    ensures { result ≡ has_status (codes "204") head.now }
{
    for field in head.as_slice() {
        if is_named(field, b":status") {
            return field.value.bytes() == b"204".as_slice();
        }
    }
    false
}

/// What the head of a response that can have no body says of one. That of 204 says nothing: RFC 9110 section 8.6.
pub fn own_framing(head: &FieldList) -> Framing
    ensures { result ≡ own_framing head.now }
{
    if is_no_content(head) {
        return Framing::NoField;
    }
    own_length(head)
}
