//! Writing Huffman strings: RFC 7541, section 5.2 and appendix B.

ghost use Rattle.std.specs.Prelude.{◌≡◌, ◌+◌, ◌*◌, ◌/◌, ◌%◌, ◌^◌, ◌<◌, ◌≤◌, ◌++◌, ◌∷◌, [], length, take, drop};
ghost use Rattle.hpack_prim.specs.Huffman.{bits, bits_of, word, words, IsHuff};

use crate::encode_table::{CODES, LENGTHS};

// How far the writing of bits has come: whole bytes, and the bits of one that is not whole.
#[derive(Clone, Copy)]
struct Pending {
    written: u32,
    part: u8,
    held: u8,
}

// A symbol's word as a number.
#[tactic(auto, unfolding(crate::specs::Encoding::code))]
fn code_of(symbol: u8) -> u32
    ensures { result ≡ code symbol }
{
    CODES[usize::from(symbol)]
}

// The length of a symbol's word.
#[tactic(auto, unfolding(crate::specs::Encoding::len))]
fn len_of(symbol: u8) -> u8
    ensures { result ≡ len symbol }
{
    LENGTHS[usize::from(symbol)]
}

ghost use Rattle.hpack_prim.specs.Encoding.{spelled, IsPending, code, len};

// Writes a bit behind the others.
#[tactic(auto, using(crate::proofs::EncodeLemmas::small_part))]
fn push_bit(out: &mut [u8], at: Pending, bit: u8) -> Pending
    requires pending { IsPending at.held at.part }
    requires bit { bit < 2 }
    requires short { length out.old < 2 ^ 32 }
    requires room { at.written < length out.old }
    ensures spelled { spelled out.new result.written result.held result.part
        ≡ spelled out.old at.written at.held at.part ++ bit ∷ [] }
    ensures pending { IsPending result.held result.part }
    ensures counted { 8 * result.written + result.held ≡ 8 * at.written + at.held + 1 }
    ensures behind { drop result.written out.new ≡ drop result.written out.old }
{
    let part = 2 * at.part + bit;
    if at.held < 7 {
        return Pending {
            written: at.written,
            part,
            held: at.held + 1,
        };
    }
    out[at.written as usize] = part;
    Pending {
        written: at.written + 1,
        part: 0,
        held: 0,
    }
}

// The bits so far and a word behind them, as a number.
fn joined(part: u8, code: u32, len: u8) -> u64
    requires part { part < 128 }
    requires len { len ≤ 30 }
    requires code { code < 2 ^ len }
    ensures { result ≡ part * 2 ^ len + code }
{
    (u64::from(part) << len) + u64::from(code)
}

// The lowest bits of a number, so many.
fn low_bits(number: u64, count: u8) -> u8
    requires { count < 8 }
    ensures { result ≡ number % 2 ^ count }
{
    (number % (1 << count)) as u8
}

// Writes a word behind the bits so far.
fn push_word(out: &mut [u8], at: Pending, symbol: u8) -> Pending
    requires pending { IsPending at.held at.part }
    requires short { length out.old < 2 ^ 32 }
    requires room { 8 * at.written + at.held + length (word symbol) ≤ 8 * length out.old }
    ensures spelled { spelled out.new result.written result.held result.part
        ≡ spelled out.old at.written at.held at.part ++ word symbol }
    ensures pending { IsPending result.held result.part }
    ensures counted { 8 * result.written + result.held ≡ 8 * at.written + at.held + length (word symbol) }
    ensures behind { drop result.written out.new ≡ drop result.written out.old }
{
    let len = len_of(symbol);
    let number = joined(at.part, code_of(symbol), len);
    let mut held = at.held + len;
    let mut written = at.written;
    while held >= 8 {
        held -= 8;
        out[written as usize] = ((number >> held) % 256) as u8;
        written += 1;
    }
    Pending {
        written,
        part: low_bits(number, held),
        held,
    }
}

/// The length in bytes of the Huffman string of these bytes.
pub fn huff_len(bytes: &[u8]) -> u64
    requires { length bytes.now < 2 ^ 32 }
    ensures { result ≡ (length (words bytes.now) + 7) / 8 }
{
    let mut total = 0u64;
    for byte in bytes {
        total += u64::from(len_of(*byte));
    }
    (total + 7) / 8
}

/// Writes the Huffman string of these bytes, and answers its length. The bytes behind it stay as they were.
pub fn huff_encode(bytes: &[u8], out: &mut [u8]) -> u32
    requires short { length out.old < 2 ^ 32 }
    requires room { (length (words bytes.now) + 7) / 8 ≤ length out.old }
    ensures string { IsHuff (take result out.new) bytes.now }
    ensures counted { result ≡ (length (words bytes.now) + 7) / 8 }
    ensures behind { drop result out.new ≡ drop result out.old }
{
    let mut at = Pending {
        written: 0,
        part: 0,
        held: 0,
    };
    for byte in bytes {
        at = push_word(out, at, *byte);
    }
    while at.held > 0 {
        at = push_bit(out, at, 1);
    }
    at.written
}
