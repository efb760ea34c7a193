//! `HttpStatus` and `ImmediateResponse`, as they are read.

use crate::answer::HeaderMutation;
use crate::fault::MsgFault;
use crate::field::{blob, text};
use crate::message::{Message, fill};
use pb_wire::{Blob, Payload, Record};
use std::alloc::Global;

/// What the records of an `HttpStatus` so far say.
#[derive(Clone, Copy)]
pub struct StatusParts {
    pub code: Option<u32>,
}

impl Message for StatusParts {
    ghost use Rattle.std.specs.Prelude.{[]};
    ghost use Rattle.ext_msgs.specs.MessageFault.{status_fault};
    ghost use Rattle.ext_msgs.specs.Parts.{status_parts, status_add};

    ghost fault = { status_fault };

    ghost start = { status_parts [] };

    ghost add = { status_add };

    fn empty(_alloc: Global) -> StatusParts {
        StatusParts { code: None }
    }

    fn take(&mut self, _alloc: Global, _bytes: &[u8], next: Record) -> Result<(), MsgFault> {
        if let Payload::Varint(number) = next.payload
            && next.number == 1
        {
            let code = number % 0x1_0000_0000;
            if code < 200 || code > 599 {
                return Err(MsgFault::BadNumber(next.place));
            }
            self.code = Some(code as u32);
        }
        Ok(())
    }
}

/// What the records of an `ImmediateResponse` so far say.
#[derive(Drop)]
pub struct ImmediateParts {
    pub status: StatusParts,
    pub headers: HeaderMutation,
    pub body: Blob,
}

impl Message for ImmediateParts {
    ghost use Rattle.std.specs.Prelude.{[]};
    ghost use Rattle.ext_msgs.specs.MessageFault.{immediate_fault};
    ghost use Rattle.ext_msgs.specs.Parts.{immediate_parts, immediate_add};

    ghost fault = { immediate_fault };

    ghost start = { immediate_parts [] };

    ghost add = { immediate_add };

    fn empty(alloc: Global) -> ImmediateParts {
        ImmediateParts {
            status: StatusParts::empty(alloc),
            headers: HeaderMutation::empty(alloc),
            body: Blob::new(alloc),
        }
    }

    fn take(&mut self, alloc: Global, bytes: &[u8], next: Record) -> Result<(), MsgFault> {
        if let Payload::Span(start, len) = next.payload {
            match next.number {
                1 => fill(&mut self.status, alloc, bytes, start, len)?,
                2 => fill(&mut self.headers, alloc, bytes, start, len)?,
                3 => self.body = blob(alloc, bytes, start, len)?,
                5 => {
                    let _details = text(alloc, bytes, next.place, start, len)?;
                }
                _ => {}
            }
        }
        Ok(())
    }
}
