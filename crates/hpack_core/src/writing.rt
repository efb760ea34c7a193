//! Writing integers, strings and fields: RFC 7541, sections 5 and 6.

ghost use Rattle.std.specs.Prelude.{◌≡◌, ◌++◌, ◌%◌, ◌^◌, ◌<◌, ◌≤◌, length, OnOk, OnErr, IfOk, vec_len, ℕ, List, All};
ghost use Rattle.hpack_prim.specs.Huffman.{IsHuff};
ghost use Rattle.hpack_prim.specs.Integers.{int};
ghost use Rattle.hpack_core.specs.Writing.{StringWritten, NameWritten, FieldWritten, FieldsWritten, field_number, name_number, update, huff_size, BlockWritten};

use crate::static_table::{number_of_field, number_of_name};
use ext_msgs::{Field, FieldList};
use hpack_prim::{huff_encode, huff_len, write_int};
use std::alloc::{AllocError, Global};

// Writes an integer at the end.
pub(crate) fn push_int(
    out: &mut Vec<u8>,
    value: u32,
    prefix: u8,
    first: u8,
) -> Result<(), AllocError>
    requires low { 1 ≤ prefix }
    requires high { prefix ≤ 8 }
    requires free { first % 2 ^ prefix ≡ 0 }
    ensures written { OnOk result (out.new.items ≡ out.old.items ++ int prefix first value) }
    ensures unchanged { OnErr result (out.new.items ≡ out.old.items) }
{
    let mut buffer = [0u8; 6];
    let len = write_int(value, prefix, first, &mut buffer);
    out.extend_from_slice(&buffer[..len as usize])
}

// The Huffman string of a text.
fn huffman_of(alloc: Global, text: &[u8], len: u32) -> Result<Vec<u8>, AllocError>
    requires short { length text.now < 2 ^ 32 }
    requires len { len ≡ huff_size text.now }
    ensures string { IfOk result (λ v. IsHuff v.items text.now) }
    ensures len { IfOk result (λ v. vec_len v ≡ len) }
{
    let mut raw = Vec::new(alloc);
    raw.resize(len as usize, 0u8)?;
    huff_encode(text, &mut raw);
    Ok(raw)
}

// Writes a string at the end. Where memory runs out, a part of it stays.
// Prover: `?` and then `Ok(())`, here and below, since a call in the last place leaves open what it ensures.
fn push_string(alloc: Global, out: &mut Vec<u8>, text: &[u8]) -> Result<(), AllocError>
    requires { length text.now < 2 ^ 32 }
    ensures { OnOk result ((s : List ℕ) × StringWritten text.now s × (out.new.items ≡ out.old.items ++ s)) }
{
    let len = huff_len(text);
    if len < text.len() as u64 {
        let raw = huffman_of(alloc, text, len as u32)?;
        push_int(out, len as u32, 7, 128)?;
        out.extend_from_slice(&raw)?;
        return Ok(());
    }
    push_int(out, text.len() as u32, 7, 0)?;
    out.extend_from_slice(text)?;
    Ok(())
}

// Writes the name of a literal at the end.
fn push_name(alloc: Global, out: &mut Vec<u8>, name: &[u8]) -> Result<(), AllocError>
    requires { length name.now < 2 ^ 32 }
    ensures { OnOk result ((s : List ℕ) × NameWritten (name_number name.now) name.now s
        × (out.new.items ≡ out.old.items ++ s)) }
{
    if let Some(number) = number_of_name(name) {
        return push_int(out, number, 4, 0);
    }
    push_int(out, 0, 4, 0)?;
    push_string(alloc, out, name)?;
    Ok(())
}

// Writes a field at the end.
fn push_field(alloc: Global, out: &mut Vec<u8>, field: &Field) -> Result<(), AllocError>
    requires name { length field.now.name < 2 ^ 32 }
    requires value { length field.now.value < 2 ^ 32 }
    ensures { OnOk result ((s : List ℕ) × FieldWritten (field_number field.now) field.now s
        × (out.new.items ≡ out.old.items ++ s)) }
{
    if let Some(number) = number_of_field(field) {
        return push_int(out, number, 7, 128);
    }
    push_name(alloc, out, field.name.bytes())?;
    push_string(alloc, out, field.value.bytes())?;
    Ok(())
}

// Writes the size update at the end, where there is one.
#[tactic(auto, unfolding(crate::specs::Writing::update))]
fn push_update(out: &mut Vec<u8>, known: u32, limit: u32) -> Result<(), AllocError>
    ensures { OnOk result (out.new.items ≡ out.old.items ++ update known limit) }
{
    if limit < known {
        push_int(out, limit, 5, 32)?;
        return Ok(());
    }
    Ok(())
}

// Writes fields at the end.
fn push_fields(alloc: Global, out: &mut Vec<u8>, fields: &FieldList) -> Result<(), AllocError>
    requires { All (λ f. (length f.name < 2 ^ 32) × (length f.value < 2 ^ 32)) fields.now }
    ensures { OnOk result ((s : List ℕ) × FieldsWritten fields.now s × (out.new.items ≡ out.old.items ++ s)) }
{
    for field in fields.as_slice() {
        push_field(alloc, out, field)?;
    }
    Ok(())
}

// The block of fields, for a peer that knows a limit.
pub(crate) fn block_of(
    alloc: Global,
    known: u32,
    limit: u32,
    fields: &FieldList,
) -> Result<Vec<u8>, AllocError>
    requires { All (λ f. (length f.name < 2 ^ 32) × (length f.value < 2 ^ 32)) fields.now }
    ensures { IfOk result (λ block. BlockWritten known limit fields.now block.items) }
{
    let mut bytes = Vec::new(alloc);
    push_update(&mut bytes, known, limit)?;
    push_fields(alloc, &mut bytes, fields)?;
    Ok(bytes)
}
