//! `BoolValue`, as it is read.

use crate::fault::MsgFault;
use crate::message::Message;
use pb_wire::{Payload, Record};
use std::alloc::Global;

/// What the records of a `BoolValue` so far say.
#[derive(Clone, Copy)]
pub struct FlagParts {
    pub value: bool,
}

impl Message for FlagParts {
    ghost use Rattle.std.specs.Prelude.{[]};
    ghost use Rattle.ext_msgs.specs.MessageFault.{no_fault};
    ghost use Rattle.ext_msgs.specs.Parts.{flag_parts, flag_add};

    ghost fault = { no_fault };

    ghost start = { flag_parts [] };

    ghost add = { flag_add };

    fn empty(_alloc: Global) -> FlagParts {
        FlagParts { value: false }
    }

    fn take(&mut self, _alloc: Global, _bytes: &[u8], next: Record) -> Result<(), MsgFault> {
        if let Payload::Varint(number) = next.payload
            && next.number == 1
        {
            self.value = number != 0;
        }
        Ok(())
    }
}
