//! The head of an immediate response.

ghost use Rattle.std.specs.Prelude.{◌≡◌, ◌+◌, ◌∷◌, [], IfOk, IfErr, length, filter, fold, codes};
ghost use Rattle.header_mutation.specs.declared.rules.PartKind.TheVariants.{ResponseHead};
ghost use Rattle.header_mutation.specs.Mutated.{replied, Fields, IsFaultOf, items, changed, field, is_of_reply};

use crate::change::change;
use crate::edit::{Edit, item_at, item_count};
use crate::mutation::first_bad;
use crate::names::{is_owned, is_pseudo};
use crate::{MutFault, PartKind};
use ext_msgs::{Field, FieldList, HeaderMutation};
use pb_wire::Blob;
use std::alloc::{AllocError, Global};

/// The head of an immediate response: `:status` with the digits given, and then the fields that its mutation sets.
///
/// An invalid item, removals among them, makes the answer malformed: `Bad`, and never `Disallowed`. Removals, owned
/// names and names that begin with `:` have no effect.
#[tactic(auto, unfolding(crate::specs::Mutated::replied))]
pub fn reply_head(
    alloc: Global,
    status: &[u8],
    mutation: &HeaderMutation,
) -> Result<FieldList, MutFault>
    ensures ok { IfOk result (λ fields. replied status.now mutation.now ≡ Fields fields) }
    ensures err { IfErr result (λ fault. IsFaultOf (replied status.now mutation.now) fault) }
{
    let Some(count) = item_count(mutation) else {
        return Err(MutFault::Memory);
    };
    if let Some(place) = first_bad(PartKind::ResponseHead, mutation, count) {
        return Err(MutFault::Bad(place));
    }
    let fields = status_alone(alloc, status)?;
    let fields = settings(alloc, fields, mutation, count)?;
    Ok(fields)
}

fn status_alone(alloc: Global, status: &[u8]) -> Result<FieldList, AllocError>
    ensures { IfOk result (λ fields. fields ≡ field (codes ":status") status.now ∷ []) }
{
    let name = Blob::of(alloc, b":status")?;
    let value = Blob::of(alloc, status)?;
    let mut fields = FieldList::new(alloc);
    fields.push(Field { name, value })?;
    Ok(fields)
}

// The fields, and behind them those that the mutation sets.
#[tactic(auto, using(crate::proofs::ItemLists::drop_items_end))]
fn settings(
    alloc: Global,
    fields: FieldList,
    mutation: &HeaderMutation,
    count: u32,
) -> Result<FieldList, AllocError>
    requires { count ≡ length mutation.now.remove + length mutation.now.set }
    ensures { IfOk result (λ after. after ≡ fold changed fields
        (filter is_of_reply (items ResponseHead mutation.now))) }
{
    let mut after = fields;
    for place in 0..count {
        let item = item_at(PartKind::ResponseHead, mutation, place);
        if is_of_reply(&item) {
            after = change(alloc, after, &item)?;
        }
    }
    Ok(after)
}

#[tactic(auto, unfolding(crate::specs::Mutated::is_of_reply), using(crate::proofs::NameTests::is_pseudo_folded))]
fn is_of_reply(edit: &Edit) -> bool
    ensures { result ≡ is_of_reply edit.now }
{
    !edit.is_removal && !is_owned(edit.name) && !is_pseudo(edit.name)
}
