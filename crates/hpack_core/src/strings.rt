ghost use Rattle.std.specs.Prelude.{◌≡◌, ◌+◌, ◌*◌, ◌^◌, ◌<◌, ◌≤◌, length, take, drop, true, IfOk};
ghost use Rattle.hpack_prim.specs.Huffman.{place_of};
ghost use Rattle.hpack_core.specs.Reading.{GivesValue, string_of, string_at, from_place, placed};

use crate::HpackFault;
use hpack_prim::{PrimFault, huff_decode, read_int};
use pb_wire::Blob;
use std::alloc::Global;

// The fault in bytes that begin at a place.
fn placed_fault(at: u32, fault: PrimFault) -> PrimFault
    requires { at + place_of fault < 2 ^ 32 }
    ensures { result ≡ from_place at fault }
{
    match fault {
        PrimFault::Truncated(p) => PrimFault::Truncated(at + p),
        PrimFault::TooLarge(p) => PrimFault::TooLarge(at + p),
        PrimFault::Eos(p) => PrimFault::Eos(at + p),
        PrimFault::Padding(p) => PrimFault::Padding(at + p),
    }
}

// What a Huffman string that begins at a place stands for.
#[tactic(auto, unfolding(crate::specs::Reading::string_of))]
fn huffman(alloc: Global, at: u32, raw: &[u8]) -> Result<Vec<u8>, HpackFault>
    requires { at + length raw.now < 2 ^ 31 }
    ensures { GivesValue (λ v. v.items) result (string_of true at raw.now) }
{
    let mut out = Vec::new(alloc);
    out.resize(2 * raw.len(), 0u8)?;
    match huff_decode(raw, &mut out) {
        Ok(n) => {
            out.truncate(n as usize);
            Ok(out)
        }
        Err(fault) => Err(HpackFault::Prim(placed_fault(at, fault))),
    }
}

// The string at a place, and the place behind it.
#[tactic(auto, unfolding(crate::specs::Reading::string_at, crate::specs::Reading::string_of))]
pub(crate) fn string(alloc: Global, bytes: &[u8], at: u32) -> Result<(Blob, u32), HpackFault>
    requires short { length bytes.now < 2 ^ 31 }
    ensures exact { GivesValue (λ p. p) result (string_at bytes.now at) }
    ensures inside { IfOk result (λ p. (at < p.1) × (p.1 ≤ length bytes.now)) }
{
    let (len, start) = read_int(bytes, at, 7)?;
    let end = u64::from(start) + u64::from(len);
    if end > bytes.len() as u64 {
        return Err(HpackFault::Prim(PrimFault::Truncated(bytes.len() as u32)));
    }
    let raw = &bytes[start as usize..end as usize];
    let value = if bytes[at as usize] >= 128 {
        huffman(alloc, start, raw)?
    } else {
        raw.to_vec(alloc)?
    };
    Ok((Blob::from_vec(value), end as u32))
}
