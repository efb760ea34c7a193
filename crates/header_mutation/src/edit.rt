//! One removal or setting of a mutation.

ghost use Rattle.std.specs.Prelude.{◌≡◌, ◌+◌, ◌<◌, ◌≤◌, ◌^◌, ◌∷◌, length, drop, IfSome, IfNone};
ghost use Rattle.header_mutation.specs.Names.{folded, canonical};
ghost use Rattle.header_mutation.specs.Mutated.{items, removal, setting};

use crate::PartKind;
use crate::names::{is_valid_name, same_name};
use crate::values::{is_valid_value, trim};
use ext_msgs::{HeaderMutation, SetField};
use std::marker::Model;

// Contracts see an `Item`: its name is in lower case, unless it begins with `:`.
#[derive(Drop)]
pub(crate) struct Edit<'a> {
    pub(crate) is_removal: bool,
    // Whether name and value, as they were written, may stand.
    pub(crate) is_valid: bool,
    // In any case.
    pub(crate) name: &'a [u8],
    // Without blanks at its ends.
    pub(crate) value: &'a [u8],
    pub(crate) action: u8,
}

impl<'a> Model for Edit<'a> {
    ghost use Rattle.header_mutation.specs.Mutated.{Item};
    ghost use Rattle.header_mutation.specs.Names.{folded};

    ghost Value = { Item };

    ghost view = { λ e. record {
      is_removal = e.is_removal;
      is_valid = e.is_valid;
      name = folded e.name.now;
      value = e.value.now;
      action = e.action;
    } };
}

// How many items a mutation has, where that is a `u32`.
pub(crate) fn item_count(mutation: &HeaderMutation) -> Option<u32>
    ensures some { IfSome result (λ n. n ≡ length mutation.now.remove + length mutation.now.set) }
    ensures none { IfNone result (2 ^ 32 ≤ length mutation.now.remove + length mutation.now.set) }
{
    let Ok(removals) = u32::try_from(mutation.remove.len()) else {
        return None;
    };
    let Ok(settings) = u32::try_from(mutation.set.len()) else {
        return None;
    };
    removals.checked_add(settings)
}

// The item at a place.
#[tactic(auto, using(crate::proofs::ItemLists::drop_items_removal, crate::proofs::ItemLists::drop_items_setting))]
pub(crate) fn item_at<'a>(part: PartKind, mutation: &'a HeaderMutation, place: u32) -> Edit<'a>
    requires { place < length mutation.now.remove + length mutation.now.set }
    ensures { drop place (items part mutation.now) ≡ result ∷ drop (place + 1) (items part mutation.now) }
{
    let place = u64::from(place);
    let removals = mutation.remove.len();
    if place < removals {
        removal(part, mutation.remove.at(place).bytes())
    } else {
        setting(part, mutation.set.at(place - removals))
    }
}

#[tactic(auto, unfolding(crate::specs::Mutated::removal))]
fn removal<'a>(part: PartKind, name: &'a [u8]) -> Edit<'a>
    ensures { result ≡ removal part name.now }
{
    Edit {
        is_removal: true,
        is_valid: is_valid_name(name),
        name: changed_name(part, name),
        value: b"".as_slice(),
        action: 0,
    }
}

#[tactic(auto, unfolding(crate::specs::Mutated::setting))]
fn setting<'a>(part: PartKind, set: &'a SetField) -> Edit<'a>
    ensures { result ≡ setting part set.now }
{
    let name = changed_name(part, set.name.bytes());
    let value = set.value.bytes();
    Edit {
        is_removal: false,
        is_valid: is_valid_name(set.name.bytes()) && is_valid_value(name, value),
        name,
        value: trim(value),
        action: set.action,
    }
}

// The name of the field that an item of this name changes.
#[tactic(auto, unfolding(crate::specs::Names::canonical, crate::specs::Names::host_in), using(crate::proofs::NameTests::folded_authority))]
fn changed_name<'a>(part: PartKind, name: &'a [u8]) -> &'a [u8]
    ensures { folded result.now ≡ canonical part name.now }
{
    match part {
        PartKind::RequestHead => {
            if same_name(name, b"host") {
                b":authority".as_slice()
            } else {
                name
            }
        }
        PartKind::ResponseHead | PartKind::Trailers => name,
    }
}
