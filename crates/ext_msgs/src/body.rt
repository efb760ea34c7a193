//! `HttpBody`, `StreamedBodyResponse` and `BodyMutation`, as they are read.

use crate::answer::BodyChange;
use crate::fault::MsgFault;
use crate::field::blob;
use crate::message::{Message, fill};
use pb_wire::{Blob, Payload, Record};
use std::alloc::Global;
use std::mem;

/// What the records of an `HttpBody` or a `StreamedBodyResponse` so far say: their fields are the same.
#[derive(Drop)]
pub struct StreamParts {
    pub body: Blob,
    pub last: bool,
}

impl Message for StreamParts {
    ghost use Rattle.std.specs.Prelude.{[]};
    ghost use Rattle.ext_msgs.specs.MessageFault.{no_fault};
    ghost use Rattle.ext_msgs.specs.Parts.{stream_parts, stream_add};

    ghost fault = { no_fault };

    ghost start = { stream_parts [] };

    ghost add = { stream_add };

    fn empty(alloc: Global) -> StreamParts {
        StreamParts {
            body: Blob::new(alloc),
            last: false,
        }
    }

    fn take(&mut self, alloc: Global, bytes: &[u8], next: Record) -> Result<(), MsgFault> {
        match next.payload {
            Payload::Span(start, len) => {
                if next.number == 1 {
                    self.body = blob(alloc, bytes, start, len)?;
                }
            }
            Payload::Varint(number) => {
                if next.number == 2 {
                    self.last = number != 0;
                }
            }
            _ => {}
        }
        Ok(())
    }
}

impl BodyChange {
    ghost use Rattle.std.specs.Prelude.{◌≡◌};
    ghost use Rattle.ext_msgs.specs.Parts.{stream_before};

    /// The streamed body that more records would join.
    fn into_stream(self, alloc: Global) -> StreamParts
        ensures { result ≡ stream_before self }
    {
        match self {
            BodyChange::Streamed(body, last) => StreamParts { body, last },
            _ => StreamParts::empty(alloc),
        }
    }
}

impl Message for BodyChange {
    ghost use Rattle.std.specs.Prelude.{[]};
    ghost use Rattle.ext_msgs.specs.MessageFault.{body_fault};
    ghost use Rattle.ext_msgs.specs.MessageValue.{body_change};
    ghost use Rattle.ext_msgs.specs.Parts.{body_add};

    ghost fault = { body_fault };

    ghost start = { body_change [] };

    ghost add = { body_add };

    fn empty(_alloc: Global) -> BodyChange {
        BodyChange::Absent
    }

    fn take(&mut self, alloc: Global, bytes: &[u8], next: Record) -> Result<(), MsgFault> {
        match next.payload {
            Payload::Span(start, len) => match next.number {
                1 => *self = BodyChange::Bytes(blob(alloc, bytes, start, len)?),
                3 => {
                    let before = mem::replace(self, BodyChange::Absent);
                    let mut stream = before.into_stream(alloc);
                    fill(&mut stream, alloc, bytes, start, len)?;
                    *self = BodyChange::Streamed(stream.body, stream.last);
                }
                _ => {}
            },
            Payload::Varint(number) => {
                if next.number == 2 {
                    *self = BodyChange::Clear(number != 0);
                }
            }
            _ => {}
        }
        Ok(())
    }
}
