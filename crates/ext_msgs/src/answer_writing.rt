//! Answers in their canonical spelling: fields in ascending order, defaults left out.

ghost use Rattle.std.specs.Prelude.{◌≡◌, ◌++◌, ◌∷◌, [], map, IfOk, OnOk};
ghost use Rattle.pb_wire.specs.Canonical.{spelling};
ghost use Rattle.ext_msgs.specs.Spelling.{set_records, set_record, removal_record, mutation_records, change_records, common_records, response_records, trailers_response_records, immediate_records, member_records, numbered, mode_records, duration_records, timeout_records, answer as answered};

use crate::records::{put_counted, put_filled, put_flag, put_number, put_present, put_signed};
use crate::writing::{body, header};
use crate::{
    Answer, BodyChange, Common, HeaderMutation, Immediate, Member, ModeNumbers, NameList, SetField,
    SetList, Span,
};
use pb_wire::{Blob, Writer};
use std::alloc::{AllocError, Global};

/// The canonical spelling of an answer.
#[tactic(auto, using(crate::proofs::Joined::spelling_both))]
pub fn write_answer(alloc: Global, answer: &Answer) -> Result<Blob, AllocError>
    ensures { IfOk result (λ blob. blob ≡ answered answer.now) }
{
    let mut message = Writer::new(alloc);
    put_member(&mut message, alloc, &answer.member)?;
    put_modes(&mut message, alloc, &answer.modes)?;
    put_timeout(&mut message, alloc, &answer.timeout)?;
    Ok(message.done())
}

#[tactic(auto, using(crate::proofs::Joined::nothing_more))]
fn put_member(out: &mut Writer, alloc: Global, member: &Member) -> Result<(), AllocError>
    ensures { OnOk result (out.new ≡ out.old ++ spelling (member_records member.now)) }
{
    match member {
        Member::Unset => Ok(()),
        Member::RequestHeaders(common) => put_present(out, 1, &response(alloc, common)?),
        Member::ResponseHeaders(common) => put_present(out, 2, &response(alloc, common)?),
        Member::RequestBody(common) => put_present(out, 3, &response(alloc, common)?),
        Member::ResponseBody(common) => put_present(out, 4, &response(alloc, common)?),
        Member::RequestTrailers(mutation) => put_present(out, 5, &trailers(alloc, mutation)?),
        Member::ResponseTrailers(mutation) => put_present(out, 6, &trailers(alloc, mutation)?),
        Member::Immediate(reply) => put_present(out, 7, &immediate(alloc, reply)?),
    }
}

#[tactic(auto, using(crate::proofs::Joined::nothing_more))]
fn put_modes(out: &mut Writer, alloc: Global, modes: &Option<ModeNumbers>) -> Result<(), AllocError>
    ensures { OnOk result (out.new ≡ out.old ++ spelling (mode_records modes.now)) }
{
    match modes {
        None => Ok(()),
        Some(modes) => put_present(out, 9, &mode_numbers(alloc, modes)?),
    }
}

#[tactic(auto, using(crate::proofs::Joined::nothing_more))]
fn put_timeout(out: &mut Writer, alloc: Global, timeout: &Option<Span>) -> Result<(), AllocError>
    ensures { OnOk result (out.new ≡ out.old ++ spelling (timeout_records timeout.now)) }
{
    match timeout {
        None => Ok(()),
        Some(timeout) => put_present(out, 10, &duration(alloc, timeout)?),
    }
}

fn mode_numbers(alloc: Global, modes: &ModeNumbers) -> Result<Blob, AllocError>
    ensures { IfOk result (λ blob. blob ≡ spelling (numbered 1 modes.now.numbers)) }
{
    let mut message = Writer::new(alloc);
    let mut number = 1;
    for mode in &modes.numbers {
        put_signed(&mut message, number, i64::from(*mode))?;
        number += 1;
    }
    Ok(message.done())
}

#[tactic(auto, using(crate::proofs::Joined::spelling_both))]
fn duration(alloc: Global, span: &Span) -> Result<Blob, AllocError>
    ensures { IfOk result (λ blob. blob ≡ spelling (duration_records span.now)) }
{
    let mut message = Writer::new(alloc);
    put_signed(&mut message, 1, span.seconds)?;
    put_signed(&mut message, 2, i64::from(span.nanos))?;
    Ok(message.done())
}

#[tactic(auto, using(crate::proofs::Joined::spelling_both))]
fn response(alloc: Global, value: &Common) -> Result<Blob, AllocError>
    ensures { IfOk result (λ blob. blob ≡ spelling (response_records value.now)) }
{
    let common = common(alloc, value)?;
    let mut message = Writer::new(alloc);
    put_filled(&mut message, 1, &common)?;
    Ok(message.done())
}

#[tactic(auto, using(crate::proofs::Joined::spelling_both))]
fn trailers(alloc: Global, value: &HeaderMutation) -> Result<Blob, AllocError>
    ensures { IfOk result (λ blob. blob ≡ spelling (trailers_response_records value.now)) }
{
    let headers = mutation(alloc, value)?;
    let mut message = Writer::new(alloc);
    put_filled(&mut message, 1, &headers)?;
    Ok(message.done())
}

#[tactic(auto, using(crate::proofs::Joined::spelling_both))]
fn immediate(alloc: Global, value: &Immediate) -> Result<Blob, AllocError>
    ensures { IfOk result (λ blob. blob ≡ spelling (immediate_records value.now)) }
{
    let mut status = Writer::new(alloc);
    put_number(&mut status, 1, u64::from(value.code))?;
    let headers = mutation(alloc, &value.headers)?;
    let mut message = Writer::new(alloc);
    put_present(&mut message, 1, &status.done())?;
    put_filled(&mut message, 2, &headers)?;
    put_filled(&mut message, 3, &value.body)?;
    Ok(message.done())
}

#[tactic(auto, using(crate::proofs::Joined::spelling_both))]
fn common(alloc: Global, value: &Common) -> Result<Blob, AllocError>
    ensures { IfOk result (λ blob. blob ≡ spelling (common_records value.now)) }
{
    let headers = mutation(alloc, &value.headers)?;
    let change = body_change(alloc, &value.body)?;
    let mut message = Writer::new(alloc);
    put_flag(&mut message, 1, value.replace)?;
    put_filled(&mut message, 2, &headers)?;
    put_filled(&mut message, 3, &change)?;
    Ok(message.done())
}

fn body_change(alloc: Global, change: &BodyChange) -> Result<Blob, AllocError>
    ensures { IfOk result (λ blob. blob ≡ spelling (change_records change.now)) }
{
    let mut message = Writer::new(alloc);
    put_change(&mut message, alloc, change)?;
    Ok(message.done())
}

#[tactic(auto, using(crate::proofs::Joined::nothing_more))]
fn put_change(out: &mut Writer, alloc: Global, change: &BodyChange) -> Result<(), AllocError>
    ensures { OnOk result (out.new ≡ out.old ++ spelling (change_records change.now)) }
{
    match change {
        BodyChange::Absent => Ok(()),
        BodyChange::Bytes(bytes) => put_present(out, 1, bytes),
        BodyChange::Clear(on) => put_counted(out, 2, u64::from(*on)),
        BodyChange::Streamed(bytes, end) => put_present(out, 3, &body(alloc, bytes, *end)?),
    }
}

#[tactic(auto, using(crate::proofs::Joined::spelling_both))]
fn mutation(alloc: Global, value: &HeaderMutation) -> Result<Blob, AllocError>
    ensures { IfOk result (λ blob. blob ≡ spelling (mutation_records value.now)) }
{
    let mut message = Writer::new(alloc);
    put_sets(&mut message, alloc, &value.set)?;
    put_removals(&mut message, &value.remove)?;
    Ok(message.done())
}

fn put_sets(out: &mut Writer, alloc: Global, fields: &SetList) -> Result<(), AllocError>
    ensures { OnOk result (out.new ≡ out.old ++ spelling (map set_record fields.now)) }
{
    for field in fields.as_slice() {
        let value = set_field(alloc, field)?;
        put_present(out, 1, &value)?;
    }
    Ok(())
}

#[tactic(auto, using(crate::proofs::Joined::spelling_both))]
fn set_field(alloc: Global, field: &SetField) -> Result<Blob, AllocError>
    ensures { IfOk result (λ blob. blob ≡ spelling (set_records field.now)) }
{
    let header = header(alloc, &field.name, &field.value)?;
    let mut message = Writer::new(alloc);
    put_present(&mut message, 1, &header)?;
    put_number(&mut message, 3, u64::from(field.action))?;
    Ok(message.done())
}

fn put_removals(out: &mut Writer, names: &NameList) -> Result<(), AllocError>
    ensures { OnOk result (out.new ≡ out.old ++ spelling (map removal_record names.now)) }
{
    for name in names.as_slice() {
        put_present(out, 2, name)?;
    }
    Ok(())
}
