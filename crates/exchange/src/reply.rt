//! Replies of the proxy's own.

ghost use Rattle.std.specs.Prelude.{◌≡◌, ℕ, List, Some, None, IfOk, is_some, true, if◌then◌else◌};
ghost use Rattle.ext_msgs.specs.declared.answer.HeaderMutation.{HeaderMutation};
ghost use Rattle.header_mutation.specs.Mutated.{IsFaultOf, first_bad, items, replied};
ghost use Rattle.http_model.specs.Reading.{Fault, status_of as status};
ghost use Rattle.http_model.specs.Wire.{local_reply, reply as reply_of};
ghost use Rattle.http_model.specs.declared.types.Direction.TheVariants.{Response};
ghost use Rattle.h1_read.specs.Messages.{fault_of};
ghost use Rattle.filter_model.specs.Course.{head_kind};
ghost use Rattle.filter_model.specs.Outgoing.{immediate_reply};

use ext_msgs::{Field, FieldList, Immediate};
use h1_read::H1Fault;
use h1_write::response_bytes;
use header_mutation::{MutFault, reply_head};
use http_model::Framing;
use pb_wire::Blob;
use std::alloc::{AllocError, Global};

/// The status of the reply to a request with this fault: RFC 9110 section 15, RFC 6585 section 5.
pub(crate) fn status_of(fault: H1Fault) -> u32
    ensures { (f : Fault) → fault_of fault ≡ Some f → result ≡ status f }
{
    match fault {
        H1Fault::BadHead | H1Fault::BadLength | H1Fault::BadChunk | H1Fault::CutShort => 400,
        H1Fault::LongHead => 431,
        H1Fault::Version => 505,
        H1Fault::Method => 501,
        // No message has it.
        H1Fault::Memory => 500,
    }
}

/// A reply of this status alone, without a body.
#[tactic(auto, unfolding(http_model::specs::Wire::local_reply))]
pub(crate) fn local_bytes(alloc: Global, status: u32) -> Result<Blob, AllocError>
    ensures { IfOk result (λ bytes. bytes ≡ local_reply status) }
{
    let digits = status.to_string(alloc)?;
    let mut head = FieldList::new(alloc);
    head.push(Field {
        name: Blob::of(alloc, b":status")?,
        value: Blob::of(alloc, digits.as_bytes())?,
    })?;
    response_bytes(alloc, &head, Framing::Length(0))
}

/// The bytes of an immediate response, or none where its mutation is invalid. 204 and 304 have neither length nor body,
/// and to HEAD the body isn't sent.
pub(crate) fn immediate_bytes(
    alloc: Global,
    to_head: bool,
    reply: &Immediate,
) -> Result<Option<Blob>, AllocError>
    ensures { IfOk result (λ bytes. bytes
        ≡ (if is_some (first_bad (items (head_kind Response) reply.now.headers)) then None
        else Some (immediate_reply to_head reply.now))) }
{
    let digits = reply.code.to_string(alloc)?;
    let head = match reply_head(alloc, digits.as_bytes(), &reply.headers) {
        Ok(head) => head,
        Err(fault) => {
            let none = none_for(fault)?;
            return Ok(none);
        }
    };
    let bytes = reply_bytes(alloc, to_head, reply.code, &head, reply.body.bytes())?;
    Ok(Some(bytes))
}

// An invalid mutation makes no reply.
fn none_for(fault: MutFault) -> Result<Option<Blob>, AllocError>
    ensures none { IfOk result (λ bytes. bytes ≡ None) }
    ensures invalid { (status : List ℕ) (m : HeaderMutation) → IsFaultOf (replied status m) fault
        → IfOk result (λ bytes. is_some (first_bad (items (head_kind Response) m)) ≡ true) }
{
    match fault {
        MutFault::Memory => Err(AllocError),
        MutFault::Bad(_) | MutFault::Disallowed(_) => Ok(None),
    }
}

#[tactic(auto, unfolding(http_model::specs::Wire::reply))]
fn reply_bytes(
    alloc: Global,
    to_head: bool,
    code: u32,
    head: &FieldList,
    body: &[u8],
) -> Result<Blob, AllocError>
    ensures { IfOk result (λ bytes. bytes ≡ reply_of to_head code head.now body.now) }
{
    if code == 204 {
        let bytes = response_bytes(alloc, head, Framing::NoField)?;
        return Ok(bytes);
    }
    if code == 304 {
        let bytes = response_bytes(alloc, head, Framing::NoField)?;
        return Ok(bytes);
    }
    let length = Framing::Length(body.len() as u64);
    let bytes = response_bytes(alloc, head, length)?;
    if to_head {
        return Ok(bytes);
    }
    let mut all = Vec::new(alloc);
    all.extend_from_slice(bytes.bytes())?;
    all.extend_from_slice(body)?;
    Ok(Blob::from_vec(all))
}
