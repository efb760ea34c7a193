ghost use Rattle.std.specs.Prelude.{◌≡◌, ◌++◌, ℕ, ◌<◌, ◌≤◌, ◌^◌, List, [], take, OnOk, OnErr, vec_len};
ghost use Rattle.pb_wire.specs.Canonical.{shortest, number_record, bytes_record};

use crate::Blob;
use std::alloc::{AllocError, Global};
use std::marker::Model;

/// Records written one after another, in their canonical spelling.
#[derive(Drop)]
pub struct Writer {
    out: Vec<u8>,
}

impl Model for Writer {
    ghost Value = { List ℕ };

    ghost view = { λ w. w.out.items };
}

impl Writer {
    pub fn new(alloc: Global) -> Writer
        ensures { result ≡ [] }
    {
        Writer {
            out: Vec::new(alloc),
        }
    }

    /// Writes a record of a number.
    pub fn varint(&mut self, number: u32, value: u64) -> Result<(), AllocError>
        requires low { 1 ≤ number }
        requires high { number < 2 ^ 29 }
        ensures written { OnOk result (self.new ≡ self.old ++ number_record number value) }
        ensures unchanged { OnErr result (self.new ≡ self.old) }
    {
        push_number(&mut self.out, number, value)
    }

    /// Writes a record of bytes.
    pub fn bytes(&mut self, number: u32, value: &[u8]) -> Result<(), AllocError>
        requires low { 1 ≤ number }
        requires high { number < 2 ^ 29 }
        ensures written { OnOk result (self.new ≡ self.old ++ bytes_record number value.now) }
        ensures unchanged { OnErr result (self.new ≡ self.old) }
    {
        push_bytes(&mut self.out, number, value)
    }

    /// What was written.
    pub fn done(self) -> Blob
        ensures { result ≡ self }
    {
        Blob::from_vec(self.out)
    }
}

// Appends the shortest spelling of a number. Where memory runs out, a part of it stays.
#[tactic(auto, using(crate::proofs::Shortest::shortest_last, crate::proofs::Shortest::shortest_more))]
fn push_varint(out: &mut Vec<u8>, value: u64) -> Result<(), AllocError>
    ensures written { OnOk result (out.new.items ≡ out.old.items ++ shortest value) }
    ensures kept { take (vec_len out.old) out.new.items ≡ out.old.items }
{
    let mut rest = value;
    while rest >= 128 {
        out.push((rest % 128 + 128) as u8)?;
        rest /= 128;
    }
    out.push(rest as u8)?;
    Ok(())
}

// A tag and a number, or nothing.
fn push_number(out: &mut Vec<u8>, number: u32, value: u64) -> Result<(), AllocError>
    requires { number < 2 ^ 29 }
    ensures written { OnOk result (out.new.items ≡ out.old.items ++ number_record number value) }
    ensures unchanged { OnErr result (out.new.items ≡ out.old.items) }
{
    let start = out.len();
    let done = try_number(out, number, value);
    if done.is_err() {
        out.truncate(start);
    }
    done
}

#[tactic(auto, unfolding(crate::specs::Canonical::number_record))]
fn try_number(out: &mut Vec<u8>, number: u32, value: u64) -> Result<(), AllocError>
    requires { number < 2 ^ 29 }
    ensures written { OnOk result (out.new.items ≡ out.old.items ++ number_record number value) }
    ensures kept { take (vec_len out.old) out.new.items ≡ out.old.items }
{
    push_varint(out, u64::from(number) * 8)?;
    push_varint(out, value)
}

// A tag, a length and bytes, or nothing.
fn push_bytes(out: &mut Vec<u8>, number: u32, value: &[u8]) -> Result<(), AllocError>
    requires { number < 2 ^ 29 }
    ensures written { OnOk result (out.new.items ≡ out.old.items ++ bytes_record number value.now) }
    ensures unchanged { OnErr result (out.new.items ≡ out.old.items) }
{
    let start = out.len();
    let done = try_bytes(out, number, value);
    if done.is_err() {
        out.truncate(start);
    }
    done
}

#[tactic(auto, unfolding(crate::specs::Canonical::bytes_record))]
fn try_bytes(out: &mut Vec<u8>, number: u32, value: &[u8]) -> Result<(), AllocError>
    requires { number < 2 ^ 29 }
    ensures written { OnOk result (out.new.items ≡ out.old.items ++ bytes_record number value.now) }
    ensures kept { take (vec_len out.old) out.new.items ≡ out.old.items }
{
    push_varint(out, u64::from(number) * 8 + 2)?;
    push_varint(out, value.len() as u64)?;
    out.extend_from_slice(value)
}
