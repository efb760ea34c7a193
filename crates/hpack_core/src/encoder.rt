//! Writing the blocks of a connection.

ghost use Rattle.std.specs.Prelude.{◌≡◌, ◌^◌, ◌<◌, [], length, min, true, IfOk, OnOk, OnErr, All};
ghost use Rattle.hpack_core.specs.Blocks.{Block};
ghost use Rattle.hpack_core.specs.Tables.{resized};
ghost use Rattle.hpack_core.specs.Writing.{BlockWritten};

use crate::table::MOST;
use crate::writing::block_of;
use ext_msgs::FieldList;
use pb_wire::Blob;
use std::alloc::{AllocError, Global};
use std::marker::Model;

/// Writes the blocks of a connection, one after another. It adds nothing to the peer's table, which stays empty.
#[derive(Drop)]
pub struct Encoder {
    alloc: Global,
    known: u32,
    limit: u32,
}

impl Model for Encoder {
    ghost use Rattle.std.specs.Prelude.{◌≤◌, []};
    ghost use Rattle.hpack_core.specs.Writing.{Writer};

    ghost Value = { Writer };

    ghost view = { λ e. record { table = record { entries = []; limit = e.known }; limit = e.limit } };

    ghost invariant = { λ e. (e.limit ≤ e.known) × (e.known ≤ 4096) };
}

impl Encoder {
    /// An encoder for a peer whose table is empty and may take 4,096 bytes. It takes no memory.
    pub fn new(alloc: Global) -> Result<Encoder, AllocError>
        ensures entries { IfOk result (λ e. e.table.entries ≡ []) }
        ensures table { IfOk result (λ e. e.table.limit ≡ 4096) }
        ensures limit { IfOk result (λ e. e.limit ≡ 4096) }
    {
        Ok(Encoder {
            alloc,
            known: MOST,
            limit: MOST,
        })
    }

    /// The size that the peer allows for its table. Where it is below the present limit, it is the limit from then on,
    /// and the next block tells it; else nothing changes.
    pub fn set_limit(&mut self, limit: u32)
        ensures limit { self.new.limit ≡ min limit self.old.limit }
        ensures table { self.new.table ≡ self.old.table }
    {
        self.limit = limit.min(self.limit);
    }

    /// The block of these fields: a size update where the limit fell, and each field by its lowest number in the static
    /// table, or as a literal without indexing, whose name is a number of the static table or a string. Strings are in
    /// Huffman form exactly where that is shorter. Where memory runs out, the encoder is as it was.
    pub fn block(&mut self, fields: &FieldList) -> Result<Blob, AllocError>
        requires { All (λ f. (length f.name < 2 ^ 32) × (length f.value < 2 ^ 32)) fields.now }
        ensures written { IfOk result (λ block. BlockWritten self.old.table.limit self.old.limit fields.now block) }
        ensures related { IfOk result (λ block. Block self.old.table true block fields.now self.new.table) }
        ensures table { OnOk result (self.new.table ≡ resized self.old.limit self.old.table) }
        ensures limit { self.new.limit ≡ self.old.limit }
        ensures unchanged { OnErr result (self.new ≡ self.old) }
    {
        let bytes = block_of(self.alloc, self.known, self.limit, fields)?;
        self.known = self.limit;
        Ok(Blob::from_vec(bytes))
    }

    /// The bytes of the names and values that are kept: none.
    pub fn held(&self) -> u64
        ensures { result ≡ 0 }
    {
        0
    }
}
