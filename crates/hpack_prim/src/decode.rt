//! Reading Huffman strings: RFC 7541, section 5.2 and appendix B.

ghost use Rattle.std.specs.Prelude.{◌≡◌, ◌/◌, ◌%◌, ◌∷◌, [], ◌+◌, ◌-◌, ◌*◌, ◌^◌, ◌<◌, ◌≤◌, length, take, drop, Some, None, Ok, Err, MatchOption, MatchResult, IfSome, IfOk, IfErr, get_or};
ghost use Rattle.hpack_prim.specs.Huffman.{bits, bits_of, symbol_at, is_padding, huff_of, place_of};
ghost use Rattle.hpack_prim.specs.Decoding.{Begins, HoldsBits, entry_8, entry_15, entry_22, entry_24, entry_28, entry_30};

use crate::PrimFault;
use crate::decode_table::{
    LENGTHS_8, LENGTHS_15, LENGTHS_22, LENGTHS_24, LENGTHS_28, LENGTHS_30, SYMBOLS_8, SYMBOLS_15,
    SYMBOLS_22, SYMBOLS_24, SYMBOLS_28, SYMBOLS_30,
};

// Prover: a function for each table, so that each proof opens one of them.

// The code by 8 bits: its length, or 0, and its symbol.
#[tactic(auto, unfolding(crate::specs::Decoding::entry_8))]
fn code_8(front: u32) -> (u8, u16)
    requires { front < 256 }
    ensures { result ≡ entry_8 front }
{
    let at = front as usize;
    (LENGTHS_8[at], u16::from(SYMBOLS_8[at]))
}

// The code by 15 bits, counted from the first of its tables: its length, or 0, and its symbol.
#[tactic(auto, unfolding(crate::specs::Decoding::entry_15))]
fn code_15(front: u32) -> (u8, u16)
    requires { front < 256 }
    ensures { result ≡ entry_15 front }
{
    let at = front as usize;
    (LENGTHS_15[at], u16::from(SYMBOLS_15[at]))
}

// The code by 22 bits, counted from the first of its tables: its length, or 0, and its symbol.
#[tactic(auto, unfolding(crate::specs::Decoding::entry_22))]
fn code_22(front: u32) -> (u8, u16)
    requires { front < 128 }
    ensures { result ≡ entry_22 front }
{
    let at = front as usize;
    (LENGTHS_22[at], u16::from(SYMBOLS_22[at]))
}

// The code by 24 bits, counted from the first of its tables: its length, or 0, and its symbol.
#[tactic(auto, unfolding(crate::specs::Decoding::entry_24))]
fn code_24(front: u32) -> (u8, u16)
    requires { front < 80 }
    ensures { result ≡ entry_24 front }
{
    let at = front as usize;
    (LENGTHS_24[at], u16::from(SYMBOLS_24[at]))
}

// The code by 28 bits, counted from the first of its tables: its length, or 0, and its symbol.
#[tactic(auto, unfolding(crate::specs::Decoding::entry_28))]
fn code_28(front: u32) -> (u8, u16)
    requires { front < 160 }
    ensures { result ≡ entry_28 front }
{
    let at = front as usize;
    (LENGTHS_28[at], u16::from(SYMBOLS_28[at]))
}

// The code by 30 bits, counted from the first of its tables: its length, or 0, and its symbol.
#[tactic(auto, unfolding(crate::specs::Decoding::entry_30))]
fn code_30(front: u32) -> (u8, u16)
    requires { front < 4 }
    ensures { result ≡ entry_30 front }
{
    let at = front as usize;
    (LENGTHS_30[at], SYMBOLS_30[at])
}

// The code at the front of 30 bits.
fn first_code(front: u32) -> (u8, u16)
    requires { front < 2 ^ 30 }
    ensures { Begins (bits 30 front) result.0 result.1 }
{
    let by_8 = code_8(front >> 22);
    if by_8.0 > 0 {
        return by_8;
    }
    let by_15 = code_15((front >> 15) - 0x7f00);
    if by_15.0 > 0 {
        return by_15;
    }
    let by_22 = code_22((front >> 8) - 0x3f_ff80);
    if by_22.0 > 0 {
        return by_22;
    }
    let by_24 = code_24((front >> 6) - 0xff_ffb0);
    if by_24.0 > 0 {
        return by_24;
    }
    let by_28 = code_28((front >> 2) - 0xfff_ff60);
    if by_28.0 > 0 {
        return by_28;
    }
    code_30(front - 0x3fff_fffc)
}

// Bits that were taken from the bytes: the lowest of a number, so many.
#[derive(Clone, Copy)]
struct Taken {
    number: u64,
    held: u8,
}

// The number that four bytes spell, the first highest.
fn number_of(a: u8, b: u8, c: u8, d: u8) -> u32
    ensures { result ≡ ((a * 256 + b) * 256 + c) * 256 + d }
{
    (u32::from(a) << 24) + (u32::from(b) << 16) + (u32::from(c) << 8) + u32::from(d)
}

// The byte at a place, and 0 behind the last.
fn byte_at(bytes: &[u8], place: usize) -> u8
    ensures { result ≡ get_or bytes.now place 0 }
{
    match bytes.get(place) {
        Some(byte) => *byte,
        None => 0,
    }
}

// Four bytes from a place on as a number, with 0 behind the last.
fn number_at(bytes: &[u8], start: usize) -> u32
    requires { start < 2 ^ 60 }
    ensures { result ≡ ((get_or bytes.now start 0 * 256 + get_or bytes.now (start + 1) 0) * 256 + get_or bytes.now
        (start + 2) 0) * 256 + get_or bytes.now (start + 3) 0 }
{
    if start + 3 < bytes.len() {
        return number_of(
            bytes[start],
            bytes[start + 1],
            bytes[start + 2],
            bytes[start + 3],
        );
    }
    number_of(
        byte_at(bytes, start),
        byte_at(bytes, start + 1),
        byte_at(bytes, start + 2),
        byte_at(bytes, start + 3),
    )
}

// The bits from a place on to the end of eight bytes, with 0 bits behind the last.
fn take_bits(bytes: &[u8], at: u64) -> Taken
    requires short { length bytes.now < 2 ^ 32 }
    requires inside { at ≤ 8 * length bytes.now }
    ensures bits { HoldsBits bytes.now at result.number result.held }
    ensures many { 30 ≤ result.held }
    ensures most { result.held ≤ 64 }
{
    let start = (at / 8) as usize;
    let high = number_at(bytes, start);
    let low = number_at(bytes, start + 4);
    Taken {
        number: (u64::from(high) << 32) + u64::from(low),
        held: (64 - at % 8) as u8,
    }
}

// The first 30 of the bits.
fn front_of(taken: Taken) -> u32
    requires many { 30 ≤ taken.held }
    requires most { taken.held ≤ 64 }
    ensures { result ≡ taken.number / 2 ^ (taken.held - 30) % 2 ^ 30 }
{
    ((taken.number >> (taken.held - 30)) % 0x4000_0000) as u32
}

// Enough bits for a code at a place, of which some may be there.
fn enough_bits(bytes: &[u8], at: u64, taken: Taken) -> Taken
    requires short { length bytes.now < 2 ^ 32 }
    requires inside { at ≤ 8 * length bytes.now }
    requires bits { HoldsBits bytes.now at taken.number taken.held }
    requires most { taken.held ≤ 64 }
    ensures bits { HoldsBits bytes.now at result.number result.held }
    ensures many { 30 ≤ result.held }
    ensures most { result.held ≤ 64 }
{
    if taken.held < 30 {
        return take_bits(bytes, at);
    }
    taken
}

// The symbol whose code begins at a place, the place behind it, and the bits that are left.
fn next_symbol(bytes: &[u8], at: u64, taken: Taken) -> Option<(u16, u64, Taken)>
    requires short { length bytes.now < 2 ^ 32 }
    requires inside { at ≤ 8 * length bytes.now }
    requires bits { HoldsBits bytes.now at taken.number taken.held }
    requires most { taken.held ≤ 64 }
    ensures symbol { MatchOption result (symbol_at (drop at (bits_of bytes.now))
        ≡ None) (λ p. symbol_at (drop at (bits_of bytes.now)) ≡ Some (p.0, drop p.1 (bits_of bytes.now))) }
    ensures inside { IfSome result (λ p. p.1 ≤ 8 * length bytes.now) }
    ensures bits { IfSome result (λ p. HoldsBits bytes.now p.1 p.2.number p.2.held) }
    ensures most { IfSome result (λ p. p.2.held ≤ 64) }
{
    let taken = enough_bits(bytes, at, taken);
    let (len, symbol) = first_code(front_of(taken));
    let next = at + u64::from(len);
    if next > bytes.len() as u64 * 8 {
        return None;
    }
    let left = Taken {
        number: taken.number,
        held: taken.held - len,
    };
    Some((symbol, next, left))
}

// The bit at a place.
// Prover: `?` on an `Option` would leave a goal open.
fn bit_at(bytes: &[u8], place: u64) -> Option<u8>
    ensures bit { MatchOption result (drop place (bits_of bytes.now) ≡ []) (λ b. drop place (bits_of bytes.now)
        ≡ b ∷ drop (place + 1) (bits_of bytes.now)) }
    ensures inside { IfSome result (λ b. place < 8 * length bytes.now) }
    ensures binary { IfSome result (λ b. b < 2) }
{
    let Some(byte) = bytes.get((place / 8) as usize) else {
        return None;
    };
    Some((*byte >> (7 - place % 8)) % 2)
}

// Whether what begins at a place is fewer than eight bits, each 1.
fn ends_padded(bytes: &[u8], at: u64) -> bool
    requires short { length bytes.now < 2 ^ 32 }
    requires inside { at ≤ 8 * length bytes.now }
    ensures { result ≡ is_padding (drop at (bits_of bytes.now)) }
{
    if bytes.len() as u64 * 8 - at >= 8 {
        return false;
    }
    let mut place = at;
    while let Some(bit) = bit_at(bytes, place) {
        if bit == 0 {
            return false;
        }
        place += 1;
    }
    true
}

/// Reads a Huffman string, and answers how many bytes it stands for. They are the first of `out`; what stands behind
/// them, or anywhere after a fault, is free.
///
/// The end code inside the string is `Eos`. A rest that begins with no code is padding, and has to be fewer than eight
/// bits, each of them 1: else it is `Padding`.
pub fn huff_decode(bytes: &[u8], out: &mut [u8]) -> Result<u32, PrimFault>
    requires short { length bytes.now < 2 ^ 31 }
    requires room { 2 * length bytes.now ≤ length out.old }
    ensures counted { IfOk result (λ n. n ≤ length out.new) }
    ensures inside { IfErr result (λ fault. place_of fault ≤ length bytes.now) }
    ensures exact { MatchResult result (λ n. huff_of bytes.now ≡ Ok (take n out.new)) (λ fault. huff_of bytes.now
        ≡ Err fault) }
{
    let mut at = 0u64;
    let mut written = 0u32;
    let mut taken = Taken { number: 0, held: 0 };
    while let Some((symbol, next, left)) = next_symbol(bytes, at, taken) {
        if symbol == 256 {
            return Err(PrimFault::Eos((at / 8) as u32));
        }
        out[written as usize] = symbol as u8;
        written += 1;
        at = next;
        taken = left;
    }
    if ends_padded(bytes, at) {
        Ok(written)
    } else {
        Err(PrimFault::Padding((at / 8) as u32))
    }
}
