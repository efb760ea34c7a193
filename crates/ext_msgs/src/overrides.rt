//! `ProcessingMode` and `Duration`, as they are read.

ghost use Rattle.std.specs.Prelude.{◌≡◌};
ghost use Rattle.ext_msgs.specs.Fields.{int32};

use crate::answer::{ModeNumbers, Span};
use crate::fault::MsgFault;
use crate::message::Message;
use pb_wire::{Payload, Record};
use std::alloc::Global;

// The low 32 bits of a number, as two's complement.
fn low_signed(number: u64) -> i32
    ensures { result ≡ int32 number }
{
    ((number % 0x1_0000_0000) as u32).cast_signed()
}

/// What the records of a `ProcessingMode` so far say.
#[derive(Clone, Copy)]
pub struct ModeParts {
    pub request_header: i32,
    pub response_header: i32,
    pub request_body: i32,
    pub response_body: i32,
    pub request_trailer: i32,
    pub response_trailer: i32,
}

impl ModeParts {
    ghost use Rattle.ext_msgs.specs.Parts.{finished_modes};

    /// The numbers in the order of their fields.
    pub fn finish(self) -> ModeNumbers
        ensures { result ≡ finished_modes self }
    {
        ModeNumbers {
            numbers: [
                self.request_header,
                self.response_header,
                self.request_body,
                self.response_body,
                self.request_trailer,
                self.response_trailer,
            ],
        }
    }
}

impl Message for ModeParts {
    ghost use Rattle.std.specs.Prelude.{[]};
    ghost use Rattle.ext_msgs.specs.MessageFault.{no_fault};
    ghost use Rattle.ext_msgs.specs.Parts.{mode_parts, modes_add};

    ghost fault = { no_fault };

    ghost start = { mode_parts [] };

    ghost add = { modes_add };

    fn empty(_alloc: Global) -> ModeParts {
        ModeParts {
            request_header: 0,
            response_header: 0,
            request_body: 0,
            response_body: 0,
            request_trailer: 0,
            response_trailer: 0,
        }
    }

    fn take(&mut self, _alloc: Global, _bytes: &[u8], next: Record) -> Result<(), MsgFault> {
        if let Payload::Varint(number) = next.payload {
            let mode = low_signed(number);
            match next.number {
                1 => self.request_header = mode,
                2 => self.response_header = mode,
                3 => self.request_body = mode,
                4 => self.response_body = mode,
                5 => self.request_trailer = mode,
                6 => self.response_trailer = mode,
                _ => {}
            }
        }
        Ok(())
    }
}

impl Message for Span {
    ghost use Rattle.std.specs.Prelude.{[]};
    ghost use Rattle.ext_msgs.specs.MessageFault.{no_fault};
    ghost use Rattle.ext_msgs.specs.MessageValue.{duration};
    ghost use Rattle.ext_msgs.specs.Parts.{duration_add};

    ghost fault = { no_fault };

    ghost start = { duration [] };

    ghost add = { duration_add };

    fn empty(_alloc: Global) -> Span {
        Span {
            seconds: 0,
            nanos: 0,
        }
    }

    fn take(&mut self, _alloc: Global, _bytes: &[u8], next: Record) -> Result<(), MsgFault> {
        if let Payload::Varint(number) = next.payload {
            match next.number {
                1 => self.seconds = number.cast_signed(),
                2 => self.nanos = low_signed(number),
                _ => {}
            }
        }
        Ok(())
    }
}
