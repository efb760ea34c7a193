//! Whether an item of a mutation is ignored, forbidden or allowed.

ghost use Rattle.std.specs.Prelude.{◌≡◌, ◌∷◌, [], codes};
ghost use Rattle.header_mutation.specs.Mutated.{verdict, changes_framing, has_value, is_untouchable, is_fixed};

use crate::Rules;
use crate::edit::Edit;
use crate::names::{
    begins_with, begins_with_any, has_field, is_owned, is_pseudo, is_routing, same_name,
};
use ext_msgs::FieldList;

#[derive(Clone, Copy)]
pub(crate) enum Verdict {
    Ignored,
    Forbidden,
    Allowed,
}

// The first test that applies decides. The head is the one that the mutation is given.
#[tactic(auto, unfolding(crate::specs::Mutated::verdict, crate::specs::Mutated::tests, crate::specs::Mutated::first_applying), using(crate::proofs::NameTests::is_pseudo_folded))]
pub(crate) fn verdict_of(rules: &Rules, head: &FieldList, edit: &Edit) -> Verdict
    ensures { result ≡ verdict rules.now head.now edit.now }
{
    if is_untouchable(head, edit) || is_fixed(edit) || changes_framing(head, edit) {
        return Verdict::Ignored;
    }
    if begins_with_any(edit.name, &rules.disallow_prefixes) {
        return Verdict::Forbidden;
    }
    if begins_with_any(edit.name, &rules.allow_prefixes) {
        return Verdict::Allowed;
    }
    if rules.disallow_all
        || (rules.disallow_system && is_pseudo(edit.name))
        || (begins_with(edit.name, b"x-envoy-") && !rules.allow_envoy)
        || (is_routing(edit.name) && !rules.allow_all_routing)
    {
        return Verdict::Forbidden;
    }
    Verdict::Allowed
}

// The proxy writes the field itself, or the head has no such pseudo field.
#[tactic(auto, unfolding(crate::specs::Mutated::is_untouchable), using(crate::proofs::NameTests::is_pseudo_folded))]
fn is_untouchable(head: &FieldList, edit: &Edit) -> bool
    ensures { result ≡ is_untouchable head.now edit.now }
{
    is_owned(edit.name) || (is_pseudo(edit.name) && !has_field(edit.name, head))
}

// The removal of a field that a head must have.
#[tactic(auto, unfolding(crate::specs::Mutated::is_fixed), using(crate::proofs::NameTests::is_pseudo_folded))]
fn is_fixed(edit: &Edit) -> bool
    ensures { result ≡ is_fixed edit.now }
{
    edit.is_removal && (is_pseudo(edit.name) || same_name(edit.name, b"host"))
}

// A method or a status that decides whether a body follows would come or go.
#[tactic(auto, unfolding(crate::specs::Mutated::changes_framing, crate::specs::Mutated::sets_to, crate::specs::Mutated::changes_from, crate::specs::Names::is_among))]
fn changes_framing(head: &FieldList, edit: &Edit) -> bool
    ensures { result ≡ changes_framing head.now edit.now }
{
    let is_method = same_name(edit.name, b":method");
    let is_status = same_name(edit.name, b":status");
    (is_method && (edit.value == b"HEAD".as_slice() || edit.value == b"CONNECT".as_slice()))
        || (is_method && is_head_request(head))
        || (is_status && (edit.value == b"204".as_slice() || edit.value == b"304".as_slice()))
        || (is_status && is_bodiless_response(head))
}

#[tactic(auto, unfolding(crate::specs::Mutated::has_value, crate::specs::Names::is_among))]
fn is_head_request(head: &FieldList) -> bool
    ensures { result ≡ has_value (codes ":method") (codes "HEAD" ∷ []) head.now }
{
    head.as_slice().iter().any(|field| {
        field.name.bytes() == b":method".as_slice() && field.value.bytes() == b"HEAD".as_slice()
    })
}

#[tactic(auto, unfolding(crate::specs::Mutated::has_value, crate::specs::Names::is_among))]
fn is_bodiless_response(head: &FieldList) -> bool
    ensures { result ≡ has_value (codes ":status") (codes "204" ∷ codes "304" ∷ []) head.now }
{
    head.as_slice().iter().any(|field| {
        field.name.bytes() == b":status".as_slice()
            && (field.value.bytes() == b"204".as_slice()
                || field.value.bytes() == b"304".as_slice())
    })
}
