//! What a client's end writes: the head of a call, and messages.

ghost use Rattle.std.specs.Prelude.{◌≡◌, ◌<◌, ◌^◌, ◌++◌, ◌∷◌, [], length, IfOk, OnOk};
ghost use Rattle.grpc_call.specs.Written.{call_fields, framed_message};

use ext_msgs::{Field, FieldList};
use pb_wire::Blob;
use std::alloc::{AllocError, Global};

/// Where the processor's service takes its calls.
pub(crate) const PATH: &[u8] = b"/envoy.service.ext_proc.v3.ExternalProcessor/Process";

pub(crate) fn push(
    alloc: Global,
    fields: &mut FieldList,
    name: &[u8],
    value: &[u8],
) -> Result<(), AllocError>
    ensures { OnOk result (fields.new ≡ fields.old ++ (record { name = name.now; value = value.now } ∷ [])) }
{
    let name = Blob::of(alloc, name)?;
    let value = Blob::of(alloc, value)?;
    fields.push(Field { name, value })
}

/// The head of a call of `ExternalProcessor/Process`.
pub fn call_head(alloc: Global, authority: &[u8]) -> Result<FieldList, AllocError>
    ensures { IfOk result (λ fields. fields ≡ call_fields authority.now) }
{
    let mut fields = FieldList::new(alloc);
    push(alloc, &mut fields, b":method", b"POST")?;
    push(alloc, &mut fields, b":scheme", b"http")?;
    push(alloc, &mut fields, b":path", PATH)?;
    push(alloc, &mut fields, b":authority", authority)?;
    push(alloc, &mut fields, b"content-type", b"application/grpc")?;
    push(alloc, &mut fields, b"te", b"trailers")?;
    Ok(fields)
}

/// A message behind its prefix, uncompressed.
pub fn frame_of(alloc: Global, message: &[u8]) -> Result<Blob, AllocError>
    requires { length message.now < 2 ^ 32 }
    ensures { IfOk result (λ b. b ≡ framed_message message.now) }
{
    let size = (message.len() as u32).to_be_bytes();
    let mut bytes = Vec::with_capacity(alloc, 5 + message.len())?;
    bytes.push(0u8)?;
    bytes.extend_from_slice(size.as_slice())?;
    bytes.extend_from_slice(message)?;
    Ok(Blob::from_vec(bytes))
}
