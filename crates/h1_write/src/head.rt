//! The head of a message: RFC 9112 sections 3 and 4, with the framing field of section 6.

ghost use Rattle.std.specs.Prelude.{◌≡◌, ◌++◌, IfOk, OnOk};
ghost use Rattle.http_model.specs.Wire.{first_lines, framing_field, head_bytes};
ghost use Rattle.h1_write.specs.Parts.{request_line, rest_of};
ghost use Rattle.http_model.specs.declared.types.Direction.TheVariants.{Request, Response};

use crate::fields::{push_kept, push_line, value_in};
use crate::reason::{code_of, phrase};
use ext_msgs::FieldList;
use http_model::{Direction, Framing};
use pb_wire::Blob;
use std::alloc::{AllocError, Global};

/// The head of a request: its first line, `host`, the other fields, the framing and `connection: close`.
#[tactic(auto, unfolding(http_model::specs::Wire::head_bytes))]
pub fn request_bytes(alloc: Global, head: &FieldList, framing: Framing) -> Result<Blob, AllocError>
    ensures { IfOk result (λ blob. blob ≡ head_bytes Request head.now framing) }
{
    let mut out = Vec::new(alloc);
    push_request_line(&mut out, head)?;
    push_rest(alloc, &mut out, head, framing)?;
    Ok(Blob::from_vec(out))
}

/// The head of a response: its status line, the other fields, the framing and `connection: close`.
#[tactic(auto, unfolding(http_model::specs::Wire::head_bytes))]
pub fn response_bytes(alloc: Global, head: &FieldList, framing: Framing) -> Result<Blob, AllocError>
    ensures { IfOk result (λ blob. blob ≡ head_bytes Response head.now framing) }
{
    let mut out = Vec::new(alloc);
    push_status_line(&mut out, head)?;
    push_rest(alloc, &mut out, head, framing)?;
    Ok(Blob::from_vec(out))
}

// `GET / HTTP/1.1`.
fn push_method_and_target(out: &mut Vec<u8>, head: &FieldList) -> Result<(), AllocError>
    ensures { OnOk result (out.new.items ≡ out.old.items ++ request_line head.now) }
{
    out.extend_from_slice(value_in(head, b":method"))?;
    out.extend_from_slice(b" ")?;
    out.extend_from_slice(value_in(head, b":path"))?;
    out.extend_from_slice(b" HTTP/1.1\r\n")?;
    Ok(())
}

// The request line and the host.
fn push_request_line(out: &mut Vec<u8>, head: &FieldList) -> Result<(), AllocError>
    ensures { OnOk result (out.new.items ≡ out.old.items ++ first_lines Request head.now) }
{
    push_method_and_target(out, head)?;
    push_line(out, b"host", value_in(head, b":authority"))?;
    Ok(())
}

// `HTTP/1.1 200 OK`.
fn push_status_line(out: &mut Vec<u8>, head: &FieldList) -> Result<(), AllocError>
    ensures { OnOk result (out.new.items ≡ out.old.items ++ first_lines Response head.now) }
{
    let status = value_in(head, b":status");
    out.extend_from_slice(b"HTTP/1.1 ")?;
    out.extend_from_slice(status)?;
    out.extend_from_slice(b" ")?;
    out.extend_from_slice(phrase(code_of(status)))?;
    out.extend_from_slice(b"\r\n")?;
    Ok(())
}

fn push_framing(alloc: Global, out: &mut Vec<u8>, framing: Framing) -> Result<(), AllocError>
    ensures { OnOk result (out.new.items ≡ out.old.items ++ framing_field framing) }
{
    match framing {
        Framing::NoField => Ok(()),
        Framing::Length(n) => {
            let digits = n.to_string(alloc)?;
            push_line(out, b"content-length", digits.as_bytes())
        }
        Framing::Chunked => push_line(out, b"transfer-encoding", b"chunked"),
    }
}

// What follows the first lines.
fn push_rest(
    alloc: Global,
    out: &mut Vec<u8>,
    head: &FieldList,
    framing: Framing,
) -> Result<(), AllocError>
    ensures { OnOk result (out.new.items ≡ out.old.items ++ rest_of head.now framing) }
{
    push_kept(out, head)?;
    push_framing(alloc, out, framing)?;
    push_line(out, b"connection", b"close")?;
    out.extend_from_slice(b"\r\n")?;
    Ok(())
}
