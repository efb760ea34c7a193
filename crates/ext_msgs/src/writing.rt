//! Asks in their canonical spelling: fields in ascending order, defaults left out.

ghost use Rattle.std.specs.Prelude.{◌≡◌, ◌≤◌, ◌<◌, ◌^◌, ◌++◌, ◌∷◌, [], map, IfOk, OnOk};
ghost use Rattle.pb_wire.specs.Canonical.{spelling};
ghost use Rattle.ext_msgs.specs.Spelling.{present, header_records, field_record, map_records, headers_records, body_records, trailers_records, ask as asked};

use crate::records::{put_filled, put_flag, put_present};
use crate::{Ask, Field, FieldList};
use pb_wire::{Blob, Writer};
use std::alloc::{AllocError, Global};

/// The canonical spelling of an ask.
pub fn write_ask(alloc: Global, ask: &Ask) -> Result<Blob, AllocError>
    ensures { IfOk result (λ blob. blob ≡ asked ask.now) }
{
    match ask {
        Ask::RequestHeaders(fields, end) => member(alloc, 2, &headers(alloc, fields, *end)?),
        Ask::ResponseHeaders(fields, end) => member(alloc, 3, &headers(alloc, fields, *end)?),
        Ask::RequestBody(bytes, end) => member(alloc, 4, &body(alloc, bytes, *end)?),
        Ask::ResponseBody(bytes, end) => member(alloc, 5, &body(alloc, bytes, *end)?),
        Ask::RequestTrailers(fields) => member(alloc, 6, &trailers(alloc, fields)?),
        Ask::ResponseTrailers(fields) => member(alloc, 7, &trailers(alloc, fields)?),
    }
}

// A message of one embedded message.
fn member(alloc: Global, number: u32, message: &Blob) -> Result<Blob, AllocError>
    requires low { 1 ≤ number }
    requires high { number < 2 ^ 29 }
    ensures { IfOk result (λ blob. blob ≡ spelling (present number message.now ∷ [])) }
{
    let mut writer = Writer::new(alloc);
    put_present(&mut writer, number, message)?;
    Ok(writer.done())
}

#[tactic(auto, using(crate::proofs::Joined::spelling_both))]
fn headers(alloc: Global, fields: &FieldList, end: bool) -> Result<Blob, AllocError>
    ensures { IfOk result (λ blob. blob ≡ spelling (headers_records fields.now end)) }
{
    let map = map(alloc, fields)?;
    let mut message = Writer::new(alloc);
    put_present(&mut message, 1, &map)?;
    put_flag(&mut message, 3, end)?;
    Ok(message.done())
}

#[tactic(auto, using(crate::proofs::Joined::spelling_both))]
pub(crate) fn body(alloc: Global, bytes: &Blob, end: bool) -> Result<Blob, AllocError>
    ensures { IfOk result (λ blob. blob ≡ spelling (body_records bytes.now end)) }
{
    let mut message = Writer::new(alloc);
    put_filled(&mut message, 1, bytes)?;
    put_flag(&mut message, 2, end)?;
    Ok(message.done())
}

fn trailers(alloc: Global, fields: &FieldList) -> Result<Blob, AllocError>
    ensures { IfOk result (λ blob. blob ≡ spelling (trailers_records fields.now)) }
{
    let map = map(alloc, fields)?;
    member(alloc, 1, &map)
}

fn map(alloc: Global, fields: &FieldList) -> Result<Blob, AllocError>
    ensures { IfOk result (λ blob. blob ≡ spelling (map_records fields.now)) }
{
    let mut message = Writer::new(alloc);
    for field in fields.as_slice() {
        let value = header(alloc, &field.name, &field.value)?;
        put_present(&mut message, 1, &value)?;
    }
    Ok(message.done())
}

#[tactic(auto, using(crate::proofs::Joined::spelling_both))]
pub(crate) fn header(alloc: Global, name: &Blob, value: &Blob) -> Result<Blob, AllocError>
    ensures { IfOk result (λ blob. blob ≡ spelling (header_records name.now value.now)) }
{
    let mut message = Writer::new(alloc);
    put_filled(&mut message, 1, name)?;
    put_filled(&mut message, 3, value)?;
    Ok(message.done())
}
