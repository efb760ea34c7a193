//! `HeaderValue`, as it is read.

use crate::fault::MsgFault;
use crate::field::{blob, text};
use crate::message::Message;
use pb_wire::{Blob, Payload, Record};
use std::alloc::Global;

/// What the records of a `HeaderValue` so far say.
#[derive(Drop)]
pub struct HeaderParts {
    pub key: Blob,
    pub value: Blob,
    pub raw_value: Blob,
}

impl Message for HeaderParts {
    ghost use Rattle.std.specs.Prelude.{[]};
    ghost use Rattle.ext_msgs.specs.MessageFault.{header_fault};
    ghost use Rattle.ext_msgs.specs.Parts.{header_parts, header_add};

    ghost fault = { header_fault };

    ghost start = { header_parts [] };

    ghost add = { header_add };

    fn empty(alloc: Global) -> HeaderParts {
        HeaderParts {
            key: Blob::new(alloc),
            value: Blob::new(alloc),
            raw_value: Blob::new(alloc),
        }
    }

    fn take(&mut self, alloc: Global, bytes: &[u8], next: Record) -> Result<(), MsgFault> {
        if let Payload::Span(start, len) = next.payload {
            match next.number {
                1 => self.key = text(alloc, bytes, next.place, start, len)?,
                2 => self.value = text(alloc, bytes, next.place, start, len)?,
                3 => self.raw_value = blob(alloc, bytes, start, len)?,
                _ => {}
            }
        }
        Ok(())
    }
}
