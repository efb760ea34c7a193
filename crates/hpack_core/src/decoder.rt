//! Reading the blocks of a connection.

ghost use Rattle.std.specs.Prelude.{◌≡◌, ◌^◌, ◌<◌, ◌≤◌, [], length, Some, None, Err, IfErr, OnOk, OnErr, IfOk, Option};
ghost use Rattle.hpack_core.specs.Tables.{kept};
ghost use Rattle.hpack_core.specs.Reading.{GivesValue, block_of};
ghost use Rattle.hpack_core.specs.declared.fault.HpackFault.{HpackFault};

use crate::HpackFault;
use crate::block::fields;
use crate::table::Table;
use ext_msgs::FieldList;
use std::alloc::{AllocError, Global};
use std::marker::Model;

/// Reads the blocks of a connection, one after another. Its table is that of the connection.
#[derive(Drop)]
pub struct Decoder {
    alloc: Global,
    table: Table,
    fault: Option<HpackFault>,
}

impl Model for Decoder {
    ghost use Rattle.hpack_core.specs.Decoding.{Reader};

    ghost Value = { Reader };

    ghost view = { λ d. record { table = d.table; fault = d.fault } };
}

impl Decoder {
    /// A decoder whose table is empty and may take 4,096 bytes. It takes no memory.
    pub fn new(alloc: Global) -> Result<Decoder, AllocError>
        ensures entries { IfOk result (λ d. d.table.entries ≡ []) }
        ensures limit { IfOk result (λ d. d.table.limit ≡ 4096) }
        ensures fault { IfOk result (λ d. d.fault ≡ None) }
    {
        Ok(Decoder {
            alloc,
            table: Table::new(alloc),
            fault: None,
        })
    }

    /// The fields of the next block, or its first fault, where a list whose sizes pass 65,536 is faulty too. A size is
    /// the bytes of name and value and 32. After a fault, out of memory among them, each later call answers the same.
    pub fn block(&mut self, bytes: &[u8]) -> Result<FieldList, HpackFault>
        requires { length bytes.now < 2 ^ 31 }
        ensures exact { self.old.fault ≡ None →
            GivesValue (λ l. (l, self.new.table)) result (block_of self.old.table bytes.now) }
        ensures again { (fault : HpackFault) → self.old.fault ≡ Some fault → result ≡ Err fault }
        ensures fault { IfErr result (λ e. self.new.fault ≡ Some e) }
        ensures ok { OnOk result (self.new.fault ≡ None) }
    {
        if let Some(fault) = self.fault {
            return Err(fault);
        }
        match fields(self.alloc, &mut self.table, bytes) {
            Ok(list) => Ok(list),
            Err(fault) => {
                self.fault = Some(fault);
                Err(fault)
            }
        }
    }

    /// The bytes of the names and values in the table, also after a fault.
    pub fn held(&self) -> u64
        ensures held { result ≡ kept self.now.table.entries }
        ensures bound { result ≤ 4096 }
    {
        self.table.held()
    }
}
