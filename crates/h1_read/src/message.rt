//! What a whole head gives: RFC 9112 sections 3 to 6, RFC 9110 sections 5, 7 and 10.1.1.

ghost use Rattle.std.specs.Prelude.{◌≡◌, ◌++◌, ◌∷◌, [], codes, IfOk, OnOk};
ghost use Rattle.http_model.specs.Bytes.{field, without};
ghost use Rattle.http_model.specs.Heads.{request_fault, request_head, response_head, is_owed_interim as owed_interim, is_bare as bare};
ghost use Rattle.h1_read.specs.HeadParts.{line_of_parts, status_of_parts};
ghost use Rattle.h1_read.specs.Messages.{Judges, final_fault, request_fields_of};

use crate::fault::H1Fault;
use crate::head::{RequestParts, ResponseParts};
use crate::length::{is_bodiless, stated_length};
use crate::shown::shown_fields;
use crate::target::target_parts;
use crate::values::{has_one_host, has_value, is_named, value_in};
use ext_msgs::{Field, FieldList};
use http_model::{Direction, Length};
use pb_wire::{Blob, Duplicate};
use std::alloc::{AllocError, Global};

/// The head of a message, as a processor sees it.
#[derive(Drop)]
pub struct Message {
    /// The pseudo fields, and then the fields that are shown.
    pub head: FieldList,
    /// How the end of the body is told.
    pub length: Length,
    /// Whether the client waits for an interim 100.
    pub expects: bool,
}

// Adds a field at the end.
fn push_field(
    alloc: Global,
    head: &mut FieldList,
    name: &[u8],
    value: &[u8],
) -> Result<(), AllocError>
    ensures { OnOk result (head.new ≡ head.old ++ field name.now value.now ∷ []) }
{
    let name = Blob::of(alloc, name)?;
    let value = Blob::of(alloc, value)?;
    head.push(Field { name, value })?;
    Ok(())
}

// Adds copies of the fields but those of this name.
fn push_others(head: &mut FieldList, fields: &[Field], name: &[u8]) -> Result<(), AllocError>
    ensures { OnOk result (head.new ≡ head.old ++ without (name.now ∷ []) fields.now) }
{
    for field in fields {
        if !is_named(field, name) {
            head.push(field.copy()?)?;
        }
    }
    Ok(())
}

// Adds copies of the fields.
fn push_all(head: &mut FieldList, fields: &[Field]) -> Result<(), AllocError>
    ensures { OnOk result (head.new ≡ head.old ++ fields.now) }
{
    for field in fields {
        head.push(field.copy()?)?;
    }
    Ok(())
}

// The fields of a request as a processor sees them.
fn request_fields(
    alloc: Global,
    parts: &RequestParts,
    authority: &[u8],
    path: &[u8],
) -> Result<FieldList, AllocError>
    ensures { IfOk result (λ head.
        head ≡ request_fields_of parts.now.method authority.now path.now parts.now.fields.items) }
{
    let mut head = FieldList::new(alloc);
    push_field(alloc, &mut head, b":method", parts.method.bytes())?;
    push_field(alloc, &mut head, b":scheme", b"http")?;
    push_field(alloc, &mut head, b":authority", authority)?;
    push_field(alloc, &mut head, b":path", path)?;
    let shown = shown_fields(alloc, parts.fields.as_slice())?;
    push_others(&mut head, shown.as_slice(), b"host")?;
    Ok(head)
}

/// What the head of a request gives, or its first fault.
#[tactic(auto, unfolding(http_model::specs::Heads::request_fault, http_model::specs::Heads::request_head))]
pub fn request_message(alloc: Global, parts: &RequestParts) -> Result<Message, H1Fault>
    ensures { Judges (request_fault (line_of_parts parts.now) parts.now.fields.items)
        (request_head (line_of_parts parts.now) parts.now.fields.items) result }
{
    let fields = parts.fields.as_slice();
    let method = parts.method.bytes();
    if parts.minor == 0 {
        return Err(H1Fault::Version);
    }
    if method == b"CONNECT".as_slice() {
        return Err(H1Fault::Method);
    }
    if !has_one_host(fields) {
        return Err(H1Fault::BadHead);
    }
    let host = value_in(fields, b"host");
    let Some((authority, path)) = target_parts(alloc, method, host, parts.target.bytes())? else {
        return Err(H1Fault::BadHead);
    };
    let Some(length) = stated_length(Direction::Request, parts.minor, fields) else {
        return Err(H1Fault::BadLength);
    };
    let expects = is_owed_interim(fields, length);
    let head = request_fields(alloc, parts, authority.bytes(), path.bytes())?;
    Ok(Message {
        head,
        length,
        expects,
    })
}

// Whether an interim 100 is owed: RFC 9110 section 10.1.1.
fn is_owed_interim(fields: &[Field], length: Length) -> bool
    ensures { result ≡ owed_interim fields.now length }
{
    !is_bodiless(length) && has_value(fields, b"expect", b"100-continue")
}

// Whether a response can have no body: to HEAD, of 204 or of 304.
fn is_bare(to_head: bool, status: &[u8]) -> bool
    ensures { result ≡ bare to_head status.now }
{
    to_head || status == b"204".as_slice() || status == b"304".as_slice()
}

/// What the head of a response that isn't interim gives, or its fault.
#[tactic(auto, unfolding(http_model::specs::Heads::response_head))]
pub fn response_message(
    alloc: Global,
    to_head: bool,
    parts: &ResponseParts,
) -> Result<Message, H1Fault>
    ensures { Judges (final_fault (status_of_parts parts.now) parts.now.fields.items)
        (response_head to_head (status_of_parts parts.now) parts.now.fields.items) result }
{
    let fields = parts.fields.as_slice();
    let Some(stated) = stated_length(Direction::Response, parts.minor, fields) else {
        return Err(H1Fault::BadLength);
    };
    let length = if is_bare(to_head, &parts.status) {
        Length::NoBody
    } else {
        stated
    };
    let mut head = FieldList::new(alloc);
    push_field(alloc, &mut head, b":status", &parts.status)?;
    let shown = shown_fields(alloc, fields)?;
    push_all(&mut head, shown.as_slice())?;
    Ok(Message {
        head,
        length,
        expects: false,
    })
}
