//! Asks and answers.

use crate::operands::{self, shown};
use anyhow::Result;
use ext_msgs::{
    Ask, BodyChange, Common, FieldList, HeaderMutation, Member, MsgFault, read_answer, read_ask,
    write_answer, write_ask,
};
use pb_wire::{Blob, Duplicate};

/// `HEX` of a `ProcessingResponse`
pub fn answer(rt: &HostRuntime, digits: &str) -> Result<()> {
    let bytes = operands::bytes(rt.alloc(), digits)?;
    match read_answer(rt.alloc(), bytes.as_slice()) {
        Ok(answer) => {
            tell_member(rt, &answer.member)?;
            tell_written(rt, &write_answer(rt.alloc(), &answer)?)
        }
        Err(fault) => tell_refused(rt, fault),
    }
}

/// `HEX` of a `ProcessingRequest`
pub fn ask(rt: &HostRuntime, digits: &str) -> Result<()> {
    let bytes = operands::bytes(rt.alloc(), digits)?;
    match read_ask(rt.alloc(), bytes.as_slice()) {
        Ok(ask) => {
            tell_ask(rt, &ask)?;
            tell_written(rt, &write_ask(rt.alloc(), &ask)?)
        }
        Err(fault) => tell_refused(rt, fault),
    }
}

fn tell_refused(rt: &HostRuntime, fault: MsgFault) -> Result<()> {
    println!(rt; "refused: {fault}")?;
    Ok(())
}

fn tell_written(rt: &HostRuntime, bytes: &Blob) -> Result<()> {
    let digits = hex::encode(rt.alloc(), bytes.bytes())?;
    println!(rt; "written {digits}")?;
    Ok(())
}

fn tell_member(rt: &HostRuntime, member: &Member) -> Result<()> {
    match member {
        Member::Unset => tell(rt, "no member"),
        Member::RequestHeaders(common) => tell_common(rt, "request headers", common),
        Member::ResponseHeaders(common) => tell_common(rt, "response headers", common),
        Member::RequestBody(common) => tell_common(rt, "request body", common),
        Member::ResponseBody(common) => tell_common(rt, "response body", common),
        Member::RequestTrailers(mutation) => {
            tell(rt, "request trailers")?;
            tell_mutation(rt, mutation)
        }
        Member::ResponseTrailers(mutation) => {
            tell(rt, "response trailers")?;
            tell_mutation(rt, mutation)
        }
        Member::Immediate(reply) => {
            let body = shown(&reply.body)?;
            println!(rt; "immediate {} {body}", reply.code)?;
            tell_mutation(rt, &reply.headers)
        }
    }
}

fn tell(rt: &HostRuntime, text: &str) -> Result<()> {
    println!(rt; "{text}")?;
    Ok(())
}

fn tell_common(rt: &HostRuntime, part: &str, common: &Common) -> Result<()> {
    println!(rt; "{part}, replace {}", common.replace)?;
    tell_mutation(rt, &common.headers)?;
    match &common.body {
        BodyChange::Absent => Ok(()),
        BodyChange::Bytes(bytes) => tell_body(rt, bytes),
        BodyChange::Clear(clear) => Ok(println!(rt; "clear {clear}")?),
        BodyChange::Streamed(bytes, last) => {
            tell_last(rt, "streamed", *last)?;
            tell_body(rt, bytes)
        }
    }
}

fn tell_last(rt: &HostRuntime, part: &str, last: bool) -> Result<()> {
    println!(rt; "{part} last {last}")?;
    Ok(())
}

fn tell_body(rt: &HostRuntime, bytes: &Blob) -> Result<()> {
    let text = shown(bytes)?;
    println!(rt; "body '{text}'")?;
    Ok(())
}

// The items of a mutation, from copies of its lists.
fn tell_mutation(rt: &HostRuntime, mutation: &HeaderMutation) -> Result<()> {
    for set in mutation.set.copy()?.as_slice() {
        let name = shown(&set.name)?;
        let value = shown(&set.value)?;
        println!(rt; "set {name}: {value} action {}", set.action)?;
    }
    for name in mutation.remove.copy()?.as_slice() {
        let name = shown(name)?;
        println!(rt; "remove {name}")?;
    }
    Ok(())
}

fn tell_ask(rt: &HostRuntime, ask: &Ask) -> Result<()> {
    match ask {
        Ask::RequestHeaders(fields, last) => {
            tell_last(rt, "request headers", *last)?;
            tell_fields(rt, fields)
        }
        Ask::ResponseHeaders(fields, last) => {
            tell_last(rt, "response headers", *last)?;
            tell_fields(rt, fields)
        }
        Ask::RequestBody(bytes, last) => {
            tell_last(rt, "request body", *last)?;
            tell_body(rt, bytes)
        }
        Ask::ResponseBody(bytes, last) => {
            tell_last(rt, "response body", *last)?;
            tell_body(rt, bytes)
        }
        Ask::RequestTrailers(fields) => {
            tell(rt, "request trailers")?;
            tell_fields(rt, fields)
        }
        Ask::ResponseTrailers(fields) => {
            tell(rt, "response trailers")?;
            tell_fields(rt, fields)
        }
    }
}

/// Writes fields, a line each.
pub fn tell_fields(rt: &HostRuntime, fields: &FieldList) -> Result<()> {
    for field in fields.copy()?.as_slice() {
        let name = shown(&field.name)?;
        let value = shown(&field.value)?;
        println!(rt; "{name}: {value}")?;
    }
    Ok(())
}
