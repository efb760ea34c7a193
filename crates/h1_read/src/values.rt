//! The values of the fields of one name.

ghost use Rattle.std.specs.Prelude.{◌≡◌, ◌∷◌, [], codes, IfNone, IfSome};
ghost use Rattle.std.specs.List.{list_any, list_all};
ghost use Rattle.http_model.specs.Bytes.{is_visible as visible, is_named as named, values_of, value_of};
ghost use Rattle.http_model.specs.Heads.{is_host as host_value, has_one_host as one_host};
ghost use Rattle.std.specs.Prelude.{bytes_eq};
ghost use Rattle.http_model.specs.Bytes.{lower};

use crate::text::is_lower;
use ext_msgs::Field;

/// Whether this is the field's name.
pub fn is_named(field: &Field, name: &[u8]) -> bool
    ensures { result ≡ named name.now field.now }
{
    field.name.bytes() == name
}

/// The value of the first field of this name, and the fields behind it.
#[tactic(auto, using(crate::proofs::NamedFields::named_here, crate::proofs::NamedFields::named_next, crate::proofs::NamedFields::named_none))]
pub fn next_named<'a>(fields: &'a [Field], name: &[u8]) -> Option<(&'a [u8], &'a [Field])>
    ensures none { IfNone result (values_of name.now fields.now ≡ []) }
    ensures some { IfSome result (λ r.
        values_of name.now fields.now ≡ r.0.now ∷ values_of name.now r.1.now) }
{
    for i in 0..fields.len() {
        if is_named(&fields[i], name) {
            return Some((fields[i].value.bytes(), &fields[i + 1..]));
        }
    }
    None
}

/// The value of the first field of this name; empty where there is none.
pub fn value_in<'a>(fields: &'a [Field], name: &[u8]) -> &'a [u8]
    ensures { result.now ≡ value_of name.now fields.now }
{
    match next_named(fields, name) {
        Some((value, _)) => value,
        None => b"",
    }
}

/// Whether a field of this name has this value, in any case.
#[tactic(auto, using(crate::proofs::NamedFields::any_here, crate::proofs::NamedFields::any_next, crate::proofs::NamedFields::any_none))]
pub fn has_value(fields: &[Field], name: &[u8], lower_text: &[u8]) -> bool
    ensures { result ≡ list_any (λ v. bytes_eq (lower v) lower_text.now)
        (values_of name.now fields.now) }
{
    for field in fields {
        if is_named(field, name) && is_lower(field.value.bytes(), lower_text) {
            return true;
        }
    }
    false
}

fn is_visible(b: u8) -> bool
    ensures { result ≡ visible b }
{
    b'!' <= b && b <= b'~'
}

fn is_all_visible(text: &[u8]) -> bool
    ensures { result ≡ list_all visible text.now }
{
    text.iter().all(|b| is_visible(*b))
}

fn is_host(value: &[u8]) -> bool
    ensures { result ≡ host_value value.now }
{
    !value.is_empty() && is_all_visible(value)
}

/// Whether there is exactly one `host`, and it can be an authority: RFC 9112 section 3.2.
pub fn has_one_host(fields: &[Field]) -> bool
    ensures { result ≡ one_host (values_of (codes "host") fields.now) }
{
    let Some((value, others)) = next_named(fields, b"host") else {
        return false;
    };
    if next_named(others, b"host").is_some() {
        return false;
    }
    is_host(value)
}
