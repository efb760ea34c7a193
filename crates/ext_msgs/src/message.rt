//! Reading any message: record by record, into what the records so far say.

ghost use Rattle.std.specs.Prelude.{◌≡◌, ◌+◌, ◌≤◌, ◌<◌, ◌^◌, Option, length, fold};
ghost use Rattle.pb_wire.specs.Records.{Entry};
ghost use Rattle.pb_wire.specs.Cursor.{Placed, part, shown, IsInside};
ghost use Rattle.pb_wire.specs.Walk.{entries};
ghost use Rattle.ext_msgs.specs.declared.fault.MsgFault.{MsgFault};
ghost use Rattle.ext_msgs.specs.Parts.{Takes, Fills, Reads};

use crate::fault::MsgFault;
use pb_wire::{Reader, Record};
use std::alloc::Global;

/// A message that is being read.
pub trait Message {
    /// What is wrong with a record as a field of the message, and with what it contains.
    ghost fault: { Placed → Option MsgFault };
    /// What no record says.
    ghost start: { Self };
    /// What one more record adds.
    ghost add: { Self → Entry → Self };

    /// The message without records.
    fn empty(alloc: Global) -> Self
        ensures { result ≡ start };

    /// Takes one more record of the bytes.
    fn take(&mut self, alloc: Global, bytes: &[u8], next: Record) -> Result<(), MsgFault>
        requires short { length bytes.now < 2 ^ 32 }
        requires inside { IsInside next.payload (length bytes.now) }
        ensures { Takes fault add self.old self.new (shown bytes.now next) result };
}

/// Takes all records of a part of the bytes.
pub fn fill<M: Message>(
    message: &mut M,
    alloc: Global,
    bytes: &[u8],
    start: u32,
    len: u32,
) -> Result<(), MsgFault>
    requires short { length bytes.now < 2 ^ 32 }
    requires inside { start + len ≤ length bytes.now }
    ensures { Fills M.fault M.add message.old message.new (start + len) (part bytes.now start len) result }
{
    let mut reader = Reader::within(bytes, start, len);
    while let Some(record) = reader.next()? {
        message.take(alloc, bytes, record)?;
    }
    Ok(())
}

/// Reads a message from a part of the bytes.
pub fn read<M: Message + Drop>(
    alloc: Global,
    bytes: &[u8],
    start: u32,
    len: u32,
) -> Result<M, MsgFault>
    requires short { length bytes.now < 2 ^ 32 }
    requires inside { start + len ≤ length bytes.now }
    ensures { Reads M.fault (fold M.add M.start (entries (part bytes.now start len))) (start + len)
        (part bytes.now start len) result }
{
    let mut message = M::empty(alloc);
    fill(&mut message, alloc, bytes, start, len)?;
    Ok(message)
}
