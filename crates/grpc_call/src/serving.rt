//! A server's end: what it makes of the head of a call, and what it writes beside messages.

ghost use Rattle.std.specs.Prelude.{◌≡◌, IfOk, codes};
ghost use Rattle.grpc_call.specs.Blocks.{first_value};
ghost use Rattle.grpc_call.specs.Served.{is_grpc, is_value, refusal_of, response_fields, service_path, status_fields};

use crate::status::first_value;
use crate::writing::{PATH, push};
use ext_msgs::FieldList;
use std::alloc::{AllocError, Global};

/// The path is that of no call that is served.
const UNIMPLEMENTED: u32 = 12;

/// The head is none of a gRPC call.
const INVALID_ARGUMENT: u32 = 3;

fn is_grpc(fields: &FieldList) -> bool
    ensures { result ≡ is_grpc (first_value (codes "content-type") fields.now) }
{
    match first_value(fields, b"content-type") {
        Some(value) => value.starts_with(b"application/grpc"),
        None => false,
    }
}

fn has_value(fields: &FieldList, name: &[u8], wanted: &[u8]) -> bool
    ensures { result ≡ is_value wanted.now (first_value name.now fields.now) }
{
    match first_value(fields, name) {
        Some(value) => value == wanted,
        None => false,
    }
}

/// The `grpc-status` with which a call is refused by its head: 12 where its path isn't that of
/// `ExternalProcessor/Process`, else 3 where its method isn't POST or its content type doesn't begin with
/// `application/grpc`.
#[tactic(auto, unfolding(crate::specs::Served::refusal_of))]
pub fn refusal_of(fields: &FieldList) -> Option<u32>
    ensures { result ≡ refusal_of fields.now }
{
    if !has_value(fields, b":path", PATH) {
        return Some(UNIMPLEMENTED);
    }
    if has_value(fields, b":method", b"POST") && is_grpc(fields) {
        None
    } else {
        Some(INVALID_ARGUMENT)
    }
}

/// The head of a response.
pub fn response_head(alloc: Global) -> Result<FieldList, AllocError>
    ensures { IfOk result (λ fields. fields ≡ response_fields) }
{
    let mut fields = FieldList::new(alloc);
    push(alloc, &mut fields, b":status", b"200")?;
    push(alloc, &mut fields, b"content-type", b"application/grpc")?;
    Ok(fields)
}

/// The last block of a response: how the call ended.
pub fn status_trailers(alloc: Global, status: u32) -> Result<FieldList, AllocError>
    ensures { IfOk result (λ fields. fields ≡ status_fields status) }
{
    let digits = status.to_string(alloc)?;
    let mut fields = FieldList::new(alloc);
    push(alloc, &mut fields, b"grpc-status", digits.as_bytes())?;
    Ok(fields)
}
