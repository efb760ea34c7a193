//! What one item makes of the fields.

ghost use Rattle.std.specs.Prelude.{◌≡◌, ◌++◌, ◌∷◌, [], IfOk};
ghost use Rattle.header_mutation.specs.Names.{folded, without};
ghost use Rattle.header_mutation.specs.Mutated.{changed, field, overwritten, set};

use crate::edit::Edit;
use crate::names::{has_field, is_pseudo, same_name};
use ext_msgs::{Field, FieldList};
use pb_wire::Blob;
use std::alloc::{AllocError, Global};

// The fields under a removal or a setting.
#[tactic(auto, unfolding(crate::specs::Mutated::changed))]
pub(crate) fn change(alloc: Global, fields: FieldList, edit: &Edit) -> Result<FieldList, AllocError>
    ensures { IfOk result (λ after. after ≡ changed fields edit.now) }
{
    if edit.is_removal {
        return Ok(remove(fields, edit.name));
    }
    set(alloc, fields, edit)
}

// The fields under a setting, by its action.
#[tactic(auto, unfolding(crate::specs::Mutated::set), using(crate::proofs::NameTests::is_pseudo_folded))]
fn set(alloc: Global, fields: FieldList, edit: &Edit) -> Result<FieldList, AllocError>
    ensures { IfOk result (λ after. after ≡ set fields edit.now) }
{
    if is_pseudo(edit.name) {
        return overwrite(alloc, fields, edit.name, edit.value);
    }
    match edit.action {
        0 => append(alloc, fields, edit),
        1 => {
            if has_field(edit.name, &fields) {
                Ok(fields)
            } else {
                append(alloc, fields, edit)
            }
        }
        3 => overwrite(alloc, fields, edit.name, edit.value),
        _ => {
            if has_field(edit.name, &fields) {
                overwrite(alloc, fields, edit.name, edit.value)
            } else {
                append(alloc, fields, edit)
            }
        }
    }
}

// The fields of any other name.
#[tactic(auto, unfolding(crate::specs::Names::without))]
fn remove(fields: FieldList, name: &[u8]) -> FieldList
    ensures { result ≡ without (folded name.now) fields }
{
    let mut fields = fields.into_vec();
    fields.retain(|field| !same_name(name, field.name.bytes()));
    FieldList::from_vec(fields)
}

fn append(alloc: Global, fields: FieldList, edit: &Edit) -> Result<FieldList, AllocError>
    ensures { IfOk result (λ after. after ≡ fields ++ field edit.now.name edit.now.value ∷ []) }
{
    let name = lower_name(alloc, edit.name)?;
    let value = Blob::of(alloc, edit.value)?;
    let mut fields = fields;
    fields.push(Field { name, value })?;
    Ok(fields)
}

// The name as it counts: in lower case, unless it begins with `:`.
#[tactic(auto, unfolding(crate::specs::Names::folded))]
fn lower_name(alloc: Global, name: &[u8]) -> Result<Blob, AllocError>
    ensures { IfOk result (λ blob. blob ≡ folded name.now) }
{
    if is_pseudo(name) {
        return Blob::of(alloc, name);
    }
    let lower: Vec<u8> = name.iter().map(|b| b.to_ascii_lowercase()).collect(alloc)?;
    Ok(Blob::from_vec(lower))
}

// The first field of the name gets the value, and its other fields go.
fn overwrite(
    alloc: Global,
    fields: FieldList,
    name: &[u8],
    value: &[u8],
) -> Result<FieldList, AllocError>
    ensures { IfOk result (λ after. after ≡ overwritten (folded name.now) value.now fields) }
{
    let mut after = Vec::new(alloc);
    let mut is_set = false;
    for field in fields.into_vec() {
        if !same_name(name, field.name.bytes()) {
            after.push(field)?;
        } else if !is_set {
            let value = Blob::of(alloc, value)?;
            let name = field.name;
            after.push(Field { name, value })?;
            is_set = true;
        }
    }
    Ok(FieldList::from_vec(after))
}
