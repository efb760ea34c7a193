//! Field lines: RFC 9112 section 5.

ghost use Rattle.std.specs.Prelude.{◌≡◌, ◌++◌, ◌↔◌, IsTrue, OnOk, filter};
ghost use Rattle.http_model.specs.Bytes.{begins_with, is_named as named, value_of};
ghost use Rattle.http_model.specs.Wire.{field_line, field_lines, is_written_as_is as kept};

use ext_msgs::{Field, FieldList};
use std::alloc::AllocError;

/// Appends a field line.
pub fn push_line(out: &mut Vec<u8>, name: &[u8], value: &[u8]) -> Result<(), AllocError>
    ensures { OnOk result (out.new.items ≡ out.old.items ++ field_line name.now value.now) }
{
    out.extend_from_slice(name)?;
    out.extend_from_slice(b": ")?;
    out.extend_from_slice(value)?;
    out.extend_from_slice(b"\r\n")?;
    Ok(())
}

fn is_named(field: &Field, name: &[u8]) -> bool
    ensures { result ≡ named name.now field.now }
{
    field.name.bytes() == name
}

/// The value of the first field of this name; empty where there is none.
#[tactic(auto, using(crate::proofs::FieldsLeft::value_at, crate::proofs::FieldsLeft::value_behind))]
pub fn value_in<'a>(head: &'a FieldList, name: &[u8]) -> &'a [u8]
    ensures { result.now ≡ value_of name.now head.now }
{
    for field in head.as_slice() {
        if is_named(field, name) {
            return field.value.bytes();
        }
    }
    b""
}

// Whether a field of a head goes out as it is: no pseudo field, and not the framing.
fn is_written_as_is(field: &Field) -> bool
    ensures { result ≡ kept field.now }
{
    let name = field.name.bytes();
    !name.starts_with(b":") && name != b"content-length".as_slice()
}

/// Appends the fields of a head that go out as they are.
#[tactic(auto, using(crate::proofs::FieldsLeft::kept_at, crate::proofs::FieldsLeft::left_out_at))]
pub fn push_kept(out: &mut Vec<u8>, head: &FieldList) -> Result<(), AllocError>
    ensures { OnOk result (out.new.items ≡ out.old.items ++ field_lines (filter kept head.now)) }
{
    for field in head.as_slice() {
        if is_written_as_is(field) {
            push_line(out, field.name.bytes(), field.value.bytes())?;
        }
    }
    Ok(())
}

/// Appends all fields.
#[tactic(auto, using(crate::proofs::FieldsLeft::field_lines_at))]
pub fn push_all(out: &mut Vec<u8>, fields: &FieldList) -> Result<(), AllocError>
    ensures { OnOk result (out.new.items ≡ out.old.items ++ field_lines fields.now) }
{
    for field in fields.as_slice() {
        push_line(out, field.name.bytes(), field.value.bytes())?;
    }
    Ok(())
}
