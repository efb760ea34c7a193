//! What the readings mean, told by the grammar of RFC 7541.

ghost use Rattle.std.specs.Prelude.{◌≡◌, ◌+◌, ◌%◌, ◌^◌, ◌<◌, ◌≤◌, ◌++◌, ◌↔◌, length, ℕ, List, Ok, Err};
ghost use Rattle.hpack_prim.specs.declared.fault.PrimFault.{PrimFault};
ghost use Rattle.hpack_prim.specs.Integers.{AreBytes, IsInt, Spelled, int, int_at};
ghost use Rattle.hpack_prim.specs.Huffman.{HasEos, HasRest, IsHuff, huff_of, word};

/// What is read as an integer is spelled there, and each spelling is read, whatever stands behind it. What is written
/// is a spelling.
pub fn integers()
    ensures found { (prefix at n next : ℕ) (bytes : List ℕ) → AreBytes bytes → int_at prefix at bytes ≡ Ok (n, next) →
        Spelled prefix at bytes n next }
    ensures only { (prefix at n : ℕ) (spelling rest : List ℕ) → IsInt prefix spelling n →
        int_at prefix at (spelling ++ rest) ≡ Ok (n, at + length spelling) }
    ensures written { (prefix first n : ℕ) → 1 ≤ prefix → prefix ≤ 8 → first % 2 ^ prefix ≡ 0 → n < 2 ^ 32 →
        IsInt prefix (int prefix first n) n }
{}

/// An integer that was written is read, whatever stands behind it.
pub fn written_integer_is_read()
    ensures { (prefix first at n : ℕ) (rest : List ℕ) → 1 ≤ prefix → prefix ≤ 8 → first % 2 ^ prefix ≡ 0 → n < 2 ^ 32 →
        int_at prefix at (int prefix first n ++ rest) ≡ Ok (n, at + length (int prefix first n)) }
{}

/// Bytes are read as symbols exactly where they are the joined codes of these symbols and padding, and each fault is
/// answered exactly where it stands behind codes.
pub fn huffman_strings()
    ensures string { (bytes symbols : List ℕ) → (huff_of bytes ≡ Ok symbols) ↔ IsHuff bytes symbols }
    ensures eos { (bytes : List ℕ) (at : ℕ) → (huff_of bytes ≡ Err (PrimFault.Eos at)) ↔ HasEos bytes at }
    ensures padding { (bytes : List ℕ) (at : ℕ) → (huff_of bytes ≡ Err (PrimFault.Padding at)) ↔ HasRest bytes at }
{}

/// The Huffman code is a prefix code: bits begin with the code of one symbol at most.
pub fn no_code_begins_another()
    ensures { (s t : ℕ) (x y : List ℕ) → s < 257 → t < 257 → word s ++ x ≡ word t ++ y → (s ≡ t) × (x ≡ y) }
{}
