//! What rules make of an ask.

ghost use Rattle.std.specs.Prelude.{◌≡◌, IfOk, map};
ghost use Rattle.std.specs.List.{list_any};
ghost use Rattle.std.specs.Char.{to_ascii_uppercase};
ghost use Rattle.rule_book.specs.Ruled.{no_mutation, overwrite, same_field, is_replied, reply, head_common, body_common, body_ruled, trailers_ruled};

use crate::book::{BodyRule, PartRules};
use ext_msgs::{
    BodyChange, Common, Field, FieldList, HeaderMutation, Immediate, Member, NameList, SetField,
    SetList,
};
use pb_wire::{Blob, Duplicate};
use std::alloc::{AllocError, Global};

fn same_field(field: &Field, other: &Field) -> bool
    ensures { result ≡ same_field field.now other.now }
{
    field.name.bytes() == other.name.bytes() && field.value.bytes() == other.value.bytes()
}

fn has_field(field: &Field, head: &FieldList) -> bool
    ensures { result ≡ list_any (same_field field.now) head.now }
{
    head.as_slice().iter().any(|other| same_field(field, other))
}

/// Whether a head calls for a reply.
#[tactic(auto, unfolding(crate::specs::Ruled::is_replied))]
pub(crate) fn is_replied(rules: &PartRules, head: &FieldList) -> bool
    ensures { result ≡ is_replied rules.now.reply_when head.now }
{
    match &rules.reply_when {
        Some(field) => has_field(field, head),
        None => false,
    }
}

fn no_mutation(alloc: Global) -> HeaderMutation
    ensures { result ≡ no_mutation }
{
    HeaderMutation {
        set: SetList::new(alloc),
        remove: NameList::new(alloc),
    }
}

/// A reply in place of the exchange.
#[tactic(auto, unfolding(crate::specs::Ruled::reply))]
pub(crate) fn reply(alloc: Global, status: u32, body: Blob) -> Member
    ensures { result ≡ reply status body }
{
    Member::Immediate(Immediate {
        code: status,
        headers: no_mutation(alloc),
        body,
    })
}

fn overwrite(field: &Field) -> Result<SetField, AllocError>
    ensures { IfOk result (λ set. set ≡ overwrite field.now) }
{
    let name = field.name.copy()?;
    let value = field.value.copy()?;
    Ok(SetField {
        name,
        value,
        action: 2,
    })
}

fn overwrite_all(alloc: Global, fields: &FieldList) -> Result<SetList, AllocError>
    ensures { IfOk result (λ sets. sets ≡ map overwrite fields.now) }
{
    let mut sets = SetList::new(alloc);
    for field in fields.as_slice() {
        sets.push(overwrite(field)?)?;
    }
    Ok(sets)
}

/// What becomes of a head.
pub(crate) fn change_head(alloc: Global, rules: &PartRules) -> Result<Common, AllocError>
    ensures { IfOk result (λ common. common ≡ head_common rules.now) }
{
    let set = overwrite_all(alloc, &rules.set)?;
    let remove = rules.remove.copy()?;
    Ok(Common {
        replace: false,
        headers: HeaderMutation { set, remove },
        body: BodyChange::Absent,
    })
}

fn upper(alloc: Global, bytes: &[u8]) -> Result<Blob, AllocError>
    ensures { IfOk result (λ upper. upper ≡ map to_ascii_uppercase bytes.now) }
{
    let mut upper = Vec::new(alloc);
    for byte in bytes {
        upper.push(byte.to_ascii_uppercase())?;
    }
    Ok(Blob::from_vec(upper))
}

#[tactic(auto, unfolding(crate::specs::Ruled::changed_by))]
fn body_change(
    alloc: Global,
    rules: &PartRules,
    is_first: bool,
    body: &Blob,
) -> Result<BodyChange, AllocError>
    ensures { IfOk result (λ change. change ≡ body_ruled rules.now is_first body.now) }
{
    match rules.body {
        BodyRule::Keep => Ok(BodyChange::Absent),
        BodyRule::Upper => {
            let upper = upper(alloc, body.bytes())?;
            Ok(BodyChange::Bytes(upper))
        }
        BodyRule::Clear => Ok(BodyChange::Clear(true)),
        BodyRule::Fixed => {
            if !is_first {
                return Ok(BodyChange::Clear(true));
            }
            let fixed = rules.fixed.copy()?;
            Ok(BodyChange::Bytes(fixed))
        }
    }
}

/// What becomes of a piece of a body, which may be the first of its stream.
pub(crate) fn change_body(
    alloc: Global,
    rules: &PartRules,
    is_first: bool,
    body: &Blob,
) -> Result<Common, AllocError>
    ensures { IfOk result (λ common. common ≡ body_common (body_ruled rules.now is_first body.now)) }
{
    let change = body_change(alloc, rules, is_first, body)?;
    Ok(Common {
        replace: false,
        headers: no_mutation(alloc),
        body: change,
    })
}

/// What becomes of trailers.
pub(crate) fn change_trailers(
    alloc: Global,
    rules: &PartRules,
) -> Result<HeaderMutation, AllocError>
    ensures { IfOk result (λ mutation. mutation ≡ trailers_ruled rules.now) }
{
    let set = overwrite_all(alloc, &rules.trailers)?;
    Ok(HeaderMutation {
        set,
        remove: NameList::new(alloc),
    })
}
