//! `CommonResponse` and what wraps it, as they are read.

use crate::answer::{BodyChange, Common, HeaderMutation};
use crate::fault::MsgFault;
use crate::message::{Message, fill};
use pb_wire::{Payload, Record};
use std::alloc::Global;

impl Message for Common {
    ghost use Rattle.std.specs.Prelude.{[]};
    ghost use Rattle.ext_msgs.specs.MessageFault.{common_fault};
    ghost use Rattle.ext_msgs.specs.MessageValue.{common};
    ghost use Rattle.ext_msgs.specs.Parts.{common_add};

    ghost fault = { common_fault };

    ghost start = { common [] };

    ghost add = { common_add };

    fn empty(alloc: Global) -> Common {
        Common {
            replace: false,
            headers: HeaderMutation::empty(alloc),
            body: BodyChange::empty(alloc),
        }
    }

    fn take(&mut self, alloc: Global, bytes: &[u8], next: Record) -> Result<(), MsgFault> {
        match next.payload {
            Payload::Span(start, len) => match next.number {
                2 => fill(&mut self.headers, alloc, bytes, start, len)?,
                3 => fill(&mut self.body, alloc, bytes, start, len)?,
                _ => {}
            },
            Payload::Varint(number) => {
                if next.number == 1 {
                    let status = number % 0x1_0000_0000;
                    if status > 1 {
                        return Err(MsgFault::BadNumber(next.place));
                    }
                    self.replace = status == 1;
                }
            }
            _ => {}
        }
        Ok(())
    }
}

/// What the records of a `HeadersResponse` or a `BodyResponse` so far say.
#[derive(Drop)]
pub struct ResponseParts {
    pub common: Common,
}

impl Message for ResponseParts {
    ghost use Rattle.std.specs.Prelude.{[]};
    ghost use Rattle.ext_msgs.specs.MessageFault.{response_fault};
    ghost use Rattle.ext_msgs.specs.Parts.{response_parts, response_add};

    ghost fault = { response_fault };

    ghost start = { response_parts [] };

    ghost add = { response_add };

    fn empty(alloc: Global) -> ResponseParts {
        ResponseParts {
            common: Common::empty(alloc),
        }
    }

    fn take(&mut self, alloc: Global, bytes: &[u8], next: Record) -> Result<(), MsgFault> {
        if let Payload::Span(start, len) = next.payload
            && next.number == 1
        {
            fill(&mut self.common, alloc, bytes, start, len)?;
        }
        Ok(())
    }
}

/// What the records of a `TrailersResponse` so far say.
#[derive(Drop)]
pub struct TrailerParts {
    pub mutation: HeaderMutation,
}

impl Message for TrailerParts {
    ghost use Rattle.std.specs.Prelude.{[]};
    ghost use Rattle.ext_msgs.specs.MessageFault.{trailers_fault};
    ghost use Rattle.ext_msgs.specs.Parts.{trailer_parts, trailer_add};

    ghost fault = { trailers_fault };

    ghost start = { trailer_parts [] };

    ghost add = { trailer_add };

    fn empty(alloc: Global) -> TrailerParts {
        TrailerParts {
            mutation: HeaderMutation::empty(alloc),
        }
    }

    fn take(&mut self, alloc: Global, bytes: &[u8], next: Record) -> Result<(), MsgFault> {
        if let Payload::Span(start, len) = next.payload
            && next.number == 1
        {
            fill(&mut self.mutation, alloc, bytes, start, len)?;
        }
        Ok(())
    }
}
