//! What the reading and the writing of blocks mean, told by the grammar of RFC 7541.

ghost use Rattle.std.specs.Prelude.{◌≡◌, ◌^◌, ◌<◌, ◌≤◌, [], length, ℕ, List, Ok, true, All};
ghost use Rattle.hpack_prim.specs.Integers.{AreBytes};
ghost use Rattle.ext_msgs.specs.declared.lists.Field.{Field};
ghost use Rattle.hpack_core.specs.Tables.{TableState, total};
ghost use Rattle.hpack_core.specs.Blocks.{Block};
ghost use Rattle.hpack_core.specs.Reading.{block_of};
ghost use Rattle.hpack_core.specs.Writing.{BlockWritten};

/// What is read of a block is in the grammar, and what is in the grammar is read where the sizes of its fields have
/// room.
pub fn blocks()
    ensures found { (bytes : List ℕ) (table behind : TableState) (fields : List Field) → AreBytes bytes →
        block_of table bytes ≡ Ok (fields, behind) → Block table true bytes fields behind }
    ensures only { (bytes : List ℕ) (table behind : TableState) (fields : List Field) →
        Block table true bytes fields behind → total fields ≤ 65536 → block_of table bytes ≡ Ok (fields, behind) }
{}

/// What an encoder writes is read, by a decoder whose table is the one that the encoder knows of, as the fields that
/// were written, and both tables are alike again.
pub fn written_block_is_read()
    ensures { (known limit : ℕ) (fields : List Field) (bytes : List ℕ) → limit ≤ known → known ≤ 4096 →
        All (λ f. (length f.name < 2 ^ 32) × (length f.value < 2 ^ 32)) fields → total fields ≤ 65536 →
        BlockWritten known limit fields bytes →
        block_of (record { entries = []; limit = known }) bytes ≡ Ok (fields, record { entries = []; limit = limit }) }
{}
