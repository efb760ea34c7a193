//! The fields of a head that are shown: those of this connection stay behind, RFC 9110 section 7.6.1.

ghost use Rattle.std.specs.Prelude.{◌≡◌, ◌++◌, ◌&&◌, ◌||◌, not, map, codes, IfOk};
ghost use Rattle.http_model.specs.Bytes.{lower, list_items, is_one_of, is_named as named, owned_names, trim as trimmed};
ghost use Rattle.http_model.specs.Heads.{connection_options, is_shown as shown, shown_fields as fields_shown};
ghost use Rattle.std.specs.Prelude.{bytes_eq};

use crate::fields::is_owned;
use crate::scan::behind;
use crate::text::{is_lower, trim};
use crate::values::is_named;
use ext_msgs::Field;
use pb_wire::Duplicate;
use std::alloc::{AllocError, Global};

// Whether an item of a list is this name, in any case.
#[tactic(auto, using(crate::proofs::ShownFields::bytes_eq_sym))]
fn is_item(item: &[u8], name: &[u8]) -> bool
    ensures { result ≡ bytes_eq name.now (lower (trimmed item.now)) }
{
    is_lower(trim(item), name)
}

// Whether a name is among the items of a list with commas: RFC 9110 section 5.6.1.
#[tactic(auto, using(crate::proofs::ShownFields::item_goes_on, crate::proofs::ShownFields::item_starts, crate::proofs::ShownFields::item_found, crate::proofs::ShownFields::item_passed, crate::proofs::ShownFields::item_last))]
fn has_item(list: &[u8], name: &[u8]) -> bool
    ensures { result ≡ is_one_of (map lower (list_items list.now)) name.now }
{
    let mut start = 0;
    for i in 0..list.len() {
        if list[i] == b',' {
            if is_item(&list[start..i], name) {
                return true;
            }
            start = i + 1;
        }
    }
    is_item(behind(list, start), name)
}

// Whether `connection` lists this name.
#[tactic(auto, using(crate::proofs::ShownFields::option_here, crate::proofs::ShownFields::option_next, crate::proofs::ShownFields::option_none))]
fn is_listed(fields: &[Field], name: &[u8]) -> bool
    ensures { result ≡ is_one_of (connection_options fields.now) name.now }
{
    for field in fields {
        if is_named(field, b"connection") && has_item(field.value.bytes(), name) {
            return true;
        }
    }
    false
}

// Whether a field of a head with these fields is shown.
#[tactic(auto, using(crate::proofs::ShownFields::hidden_by))]
fn is_shown(fields: &[Field], field: &Field) -> bool
    ensures { result ≡ shown (owned_names ++ connection_options fields.now) field.now }
{
    let name = field.name.bytes();
    is_named(field, b"content-length") || !(is_owned(name) || is_listed(fields, name))
}

// Whether a field goes along, where a length went along or not.
fn is_kept(fields: &[Field], field: &Field, has_length: bool) -> bool
    ensures { result ≡ (shown (owned_names ++ connection_options fields.now) field.now
        && not (has_length && named (codes "content-length") field.now)) }
{
    is_shown(fields, field) && !(has_length && is_named(field, b"content-length"))
}

fn either(a: bool, b: bool) -> bool
    ensures { result ≡ (a || b) }
{
    a || b
}

/// Copies of the fields that are shown; of several `content-length` the first.
#[tactic(auto, using(crate::proofs::ShownFields::kept_at, crate::proofs::ShownFields::left_out_at, crate::proofs::ShownFields::left_all, crate::proofs::ShownFields::left_none))]
pub fn shown_fields(alloc: Global, fields: &[Field]) -> Result<Vec<Field>, AllocError>
    ensures { IfOk result (λ v. v.items ≡ fields_shown fields.now) }
{
    let mut shown = Vec::new(alloc);
    let mut has_length = false;
    for field in fields {
        if !is_kept(fields, field, has_length) {
            continue;
        }
        has_length = either(has_length, is_named(field, b"content-length"));
        shown.push(field.copy()?)?;
    }
    Ok(shown)
}
