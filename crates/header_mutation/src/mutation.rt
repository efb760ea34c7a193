//! A mutation as a whole.

ghost use Rattle.std.specs.Prelude.{◌≡◌, ◌+◌, ◌≤◌, ◌^◌, IfOk, IfErr, OnOk, length};
ghost use Rattle.header_mutation.specs.Mutated.{mutated, Fields, IsFaultOf, items, applied, first_bad, first_disallowed};

use crate::change::change;
use crate::edit::{item_at, item_count};
use crate::verdict::{Verdict, verdict_of};
use crate::{MutFault, PartKind, Rules};
use ext_msgs::{FieldList, HeaderMutation};
use pb_wire::Duplicate;
use std::alloc::{AllocError, Global};

/// The head, or the trailers, under a mutation.
///
/// The least invalid item makes the answer malformed: `Bad`. With `disallow_is_error` the least forbidden item
/// refuses the mutation: `Disallowed`. Else the allowed removals are applied, and then the allowed settings, in their
/// order. Each item is judged by the head as it came. Nothing of the head is changed.
pub fn apply(
    alloc: Global,
    rules: &Rules,
    part: PartKind,
    head: &FieldList,
    mutation: &HeaderMutation,
) -> Result<FieldList, MutFault>
    ensures ok { IfOk result (λ fields. mutated rules.now part head.now mutation.now ≡ Fields fields) }
    ensures err { IfErr result (λ fault. IsFaultOf (mutated rules.now part head.now mutation.now) fault) }
{
    judge(rules, part, head, mutation)?;
    let Some(count) = item_count(mutation) else {
        return Err(MutFault::Memory);
    };
    let fields = applied(alloc, rules, part, head, mutation, count)?;
    Ok(fields)
}

/// Whether a mutation has a result, and else why not. It takes no memory: `Memory` comes only with 2^32 items or more.
#[tactic(auto, unfolding(crate::specs::Mutated::mutated))]
pub fn judge(
    rules: &Rules,
    part: PartKind,
    head: &FieldList,
    mutation: &HeaderMutation,
) -> Result<(), MutFault>
    ensures ok { OnOk result (mutated rules.now part head.now mutation.now ≡ Fields
        (applied rules.now head.now (items part mutation.now))) }
    ensures err { IfErr result (λ fault. IsFaultOf (mutated rules.now part head.now mutation.now) fault) }
    ensures memory { IfErr result (λ fault. fault ≡ MutFault.Memory
        → 2 ^ 32 ≤ length mutation.now.remove + length mutation.now.set) }
{
    let Some(count) = item_count(mutation) else {
        return Err(MutFault::Memory);
    };
    if let Some(place) = first_bad(part, mutation, count) {
        return Err(MutFault::Bad(place));
    }
    if let Some(place) = first_disallowed(rules, part, head, mutation, count) {
        return Err(MutFault::Disallowed(place));
    }
    Ok(())
}

// The place of the first invalid item.
#[tactic(auto, unfolding(crate::specs::Mutated::first_bad), using(crate::proofs::ItemLists::drop_items_end))]
pub(crate) fn first_bad(part: PartKind, mutation: &HeaderMutation, count: u32) -> Option<u32>
    requires { count ≡ length mutation.now.remove + length mutation.now.set }
    ensures { result ≡ first_bad (items part mutation.now) }
{
    for place in 0..count {
        let item = item_at(part, mutation, place);
        if !item.is_valid {
            return Some(place);
        }
    }
    None
}

// The place of the first forbidden item, where that is an error.
#[tactic(auto, unfolding(crate::specs::Mutated::first_disallowed), using(crate::proofs::ItemLists::drop_items_end))]
fn first_disallowed(
    rules: &Rules,
    part: PartKind,
    head: &FieldList,
    mutation: &HeaderMutation,
    count: u32,
) -> Option<u32>
    requires { count ≡ length mutation.now.remove + length mutation.now.set }
    ensures { result ≡ first_disallowed rules.now head.now (items part mutation.now) }
{
    if !rules.disallow_is_error {
        return None;
    }
    for place in 0..count {
        let item = item_at(part, mutation, place);
        match verdict_of(rules, head, &item) {
            Verdict::Forbidden => return Some(place),
            Verdict::Ignored | Verdict::Allowed => {}
        }
    }
    None
}

// The allowed items, in order.
#[tactic(auto, unfolding(crate::specs::Mutated::applied), using(crate::proofs::ItemLists::drop_items_end))]
fn applied(
    alloc: Global,
    rules: &Rules,
    part: PartKind,
    head: &FieldList,
    mutation: &HeaderMutation,
    count: u32,
) -> Result<FieldList, AllocError>
    requires { count ≡ length mutation.now.remove + length mutation.now.set }
    ensures { IfOk result (λ fields. fields ≡ applied rules.now head.now (items part mutation.now)) }
{
    let mut fields = head.copy()?;
    for place in 0..count {
        let item = item_at(part, mutation, place);
        match verdict_of(rules, head, &item) {
            Verdict::Allowed => fields = change(alloc, fields, &item)?,
            Verdict::Ignored | Verdict::Forbidden => {}
        }
    }
    Ok(fields)
}
