//! Integers: RFC 7541, section 5.1.

ghost use Rattle.std.specs.Prelude.{◌≡◌, ◌+◌, ◌%◌, ◌^◌, ◌<◌, ◌≤◌, ◌++◌, length, drop, IfOk};
ghost use Rattle.hpack_prim.specs.Integers.{int_at, groups_at, int};

use crate::PrimFault;

// The greatest number that so many bits spell.
fn ones(prefix: u8) -> u8
    requires low { 1 ≤ prefix }
    requires high { prefix ≤ 8 }
    ensures { result + 1 ≡ 2 ^ prefix }
{
    match prefix {
        1 => 1,
        2 => 3,
        3 => 7,
        4 => 15,
        5 => 31,
        6 => 63,
        7 => 127,
        _ => 255,
    }
}

/// The integer that begins in the last `prefix` bits of the byte at a place, and the place behind it.
///
/// Longer spellings than needed are read. A byte that is missing is `Truncated`. An integer above 2^32 - 1, or one with
/// a sixth continuation byte, is `TooLarge`.
#[tactic(auto, unfolding(crate::specs::Integers::int_at))]
pub fn read_int(bytes: &[u8], at: u32, prefix: u8) -> Result<(u32, u32), PrimFault>
    requires short { length bytes.now < 2 ^ 32 }
    requires low { 1 ≤ prefix }
    requires high { prefix ≤ 8 }
    ensures exact { result ≡ int_at prefix at (drop at bytes.now) }
    ensures inside { IfOk result (λ p. (at < p.1) × (p.1 ≤ length bytes.now)) }
{
    let full = ones(prefix);
    let Some(first) = bytes.get(at as usize) else {
        return Err(PrimFault::Truncated(at));
    };
    let low = if full == 255 {
        *first
    } else {
        *first % (full + 1)
    };
    if low < full {
        return Ok((u32::from(low), at + 1));
    }
    read_groups(bytes, at + 1, full)
}

// The groups of seven bits behind a full prefix.
#[tactic(auto, unfolding(crate::specs::Integers::groups_at))]
fn read_groups(bytes: &[u8], at: u32, full: u8) -> Result<(u32, u32), PrimFault>
    requires short { length bytes.now < 2 ^ 32 }
    requires inside { at ≤ length bytes.now }
    ensures exact { result ≡ groups_at 5 full 1 at (drop at bytes.now) }
    ensures inside { IfOk result (λ p. (at < p.1) × (p.1 ≤ length bytes.now)) }
{
    let mut value = u64::from(full);
    let mut weight = 1u64;
    let mut place = at;
    for _ in 0..5u8 {
        let Some(byte) = bytes.get(place as usize) else {
            return Err(PrimFault::Truncated(place));
        };
        value += weight * u64::from(*byte % 128);
        if value >= 0x1_0000_0000 {
            return Err(PrimFault::TooLarge(place));
        }
        place += 1;
        if *byte < 128 {
            return Ok((value as u32, place));
        }
        weight *= 128;
    }
    if bytes.get(place as usize).is_none() {
        return Err(PrimFault::Truncated(place));
    }
    Err(PrimFault::TooLarge(place))
}

/// Writes the shortest spelling of an integer behind the high bits of `first`, and answers its length, which is 6 at
/// most. The bytes behind it stay as they were.
pub fn write_int(value: u32, prefix: u8, first: u8, out: &mut [u8]) -> u32
    requires low { 1 ≤ prefix }
    requires high { prefix ≤ 8 }
    requires free { first % 2 ^ prefix ≡ 0 }
    requires room { 6 ≤ length out.old }
    ensures written { out.new ≡ int prefix first value ++ drop result out.old }
    ensures counted { result ≡ length (int prefix first value) }
{
    let full = ones(prefix);
    if value < u32::from(full) {
        out[0] = first + value as u8;
        return 1;
    }
    out[0] = first + full;
    let mut rest = value - u32::from(full);
    let mut at = 1u32;
    while rest >= 128 {
        out[at as usize] = (rest % 128 + 128) as u8;
        rest /= 128;
        at += 1;
    }
    out[at as usize] = rest as u8;
    at + 1
}
