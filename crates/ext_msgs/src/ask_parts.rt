//! `ProcessingRequest`, as it is read.

use crate::ask::Ask;
use crate::body::StreamParts;
use crate::fault::MsgFault;
use crate::header::HeaderParts;
use crate::lists::{Field, FieldList};
use crate::message::{Message, fill, read};
use pb_wire::{Payload, Record};
use std::alloc::Global;

impl HeaderParts {
    ghost use Rattle.std.specs.Prelude.{◌≡◌};
    ghost use Rattle.ext_msgs.specs.Parts.{finished_field};

    /// The field of these records.
    fn into_field(self) -> Field
        ensures { result ≡ finished_field self }
    {
        let HeaderParts {
            key,
            value,
            raw_value,
        } = self;
        Field {
            name: key,
            value: if raw_value.is_empty() {
                value
            } else {
                raw_value
            },
        }
    }
}

/// What the records of a `HeaderMap` so far say.
#[derive(Drop)]
pub struct MapParts {
    pub fields: FieldList,
}

impl Message for MapParts {
    ghost use Rattle.std.specs.Prelude.{[]};
    ghost use Rattle.ext_msgs.specs.MessageFault.{map_fault};
    ghost use Rattle.ext_msgs.specs.Parts.{map_parts, map_add};

    ghost fault = { map_fault };

    ghost start = { map_parts [] };

    ghost add = { map_add };

    fn empty(alloc: Global) -> MapParts {
        MapParts {
            fields: FieldList::new(alloc),
        }
    }

    fn take(&mut self, alloc: Global, bytes: &[u8], next: Record) -> Result<(), MsgFault> {
        if let Payload::Span(start, len) = next.payload
            && next.number == 1
        {
            let header: HeaderParts = read(alloc, bytes, start, len)?;
            self.fields.push(header.into_field())?;
        }
        Ok(())
    }
}

/// What the records of an `HttpHeaders` so far say.
#[derive(Drop)]
pub struct HeadParts {
    pub map: MapParts,
    pub last: bool,
}

impl Message for HeadParts {
    ghost use Rattle.std.specs.Prelude.{[]};
    ghost use Rattle.ext_msgs.specs.MessageFault.{fields_fault};
    ghost use Rattle.ext_msgs.specs.Parts.{head_parts, head_add};

    ghost fault = { fields_fault };

    ghost start = { head_parts [] };

    ghost add = { head_add };

    fn empty(alloc: Global) -> HeadParts {
        HeadParts {
            map: MapParts::empty(alloc),
            last: false,
        }
    }

    fn take(&mut self, alloc: Global, bytes: &[u8], next: Record) -> Result<(), MsgFault> {
        match next.payload {
            Payload::Span(start, len) => {
                if next.number == 1 {
                    fill(&mut self.map, alloc, bytes, start, len)?;
                }
            }
            Payload::Varint(number) => {
                if next.number == 3 {
                    self.last = number != 0;
                }
            }
            _ => {}
        }
        Ok(())
    }
}

/// What the records of an `HttpTrailers` so far say.
#[derive(Drop)]
pub struct TailParts {
    pub map: MapParts,
}

impl Message for TailParts {
    ghost use Rattle.std.specs.Prelude.{[]};
    ghost use Rattle.ext_msgs.specs.MessageFault.{fields_fault};
    ghost use Rattle.ext_msgs.specs.Parts.{tail_parts, tail_add};

    ghost fault = { fields_fault };

    ghost start = { tail_parts [] };

    ghost add = { tail_add };

    fn empty(alloc: Global) -> TailParts {
        TailParts {
            map: MapParts::empty(alloc),
        }
    }

    fn take(&mut self, alloc: Global, bytes: &[u8], next: Record) -> Result<(), MsgFault> {
        if let Payload::Span(start, len) = next.payload
            && next.number == 1
        {
            fill(&mut self.map, alloc, bytes, start, len)?;
        }
        Ok(())
    }
}

/// The member of the oneof that was set last: its number, or 0, and what its occurrences so far say.
#[derive(Drop)]
pub struct AskParts {
    pub number: u32,
    pub head: HeadParts,
    pub body: StreamParts,
    pub tail: TailParts,
}

impl AskParts {
    ghost use Rattle.std.specs.Prelude.{◌≡◌};
    ghost use Rattle.ext_msgs.specs.Parts.{fresh_ask, entered_ask, finished_ask};

    fn fresh(alloc: Global, number: u32) -> AskParts
        ensures { result ≡ fresh_ask number }
    {
        AskParts {
            number,
            head: HeadParts::empty(alloc),
            body: StreamParts::empty(alloc),
            tail: TailParts::empty(alloc),
        }
    }

    /// Begins the member of this number, unless it was set last.
    fn enter(&mut self, alloc: Global, number: u32)
        ensures { self.new ≡ entered_ask self.old number }
    {
        if self.number != number {
            *self = AskParts::fresh(alloc, number);
        }
    }

    /// The whole ask, or that there is no member.
    pub fn finish(self) -> Result<Ask, MsgFault>
        ensures { result ≡ finished_ask self }
    {
        let AskParts {
            number,
            head,
            body,
            tail,
        } = self;
        match number {
            2 => Ok(Ask::RequestHeaders(head.map.fields, head.last)),
            3 => Ok(Ask::ResponseHeaders(head.map.fields, head.last)),
            4 => Ok(Ask::RequestBody(body.body, body.last)),
            5 => Ok(Ask::ResponseBody(body.body, body.last)),
            6 => Ok(Ask::RequestTrailers(tail.map.fields)),
            7 => Ok(Ask::ResponseTrailers(tail.map.fields)),
            _ => Err(MsgFault::NoMember),
        }
    }
}

impl Message for AskParts {
    ghost use Rattle.std.specs.Prelude.{[]};
    ghost use Rattle.ext_msgs.specs.MessageFault.{ask_fault};
    ghost use Rattle.ext_msgs.specs.Parts.{ask_parts, ask_add};

    ghost fault = { ask_fault };

    ghost start = { ask_parts [] };

    ghost add = { ask_add };

    fn empty(alloc: Global) -> AskParts {
        AskParts::fresh(alloc, 0)
    }

    fn take(&mut self, alloc: Global, bytes: &[u8], next: Record) -> Result<(), MsgFault> {
        if let Payload::Span(start, len) = next.payload {
            match next.number {
                2..=3 => {
                    self.enter(alloc, next.number);
                    fill(&mut self.head, alloc, bytes, start, len)?;
                }
                4..=5 => {
                    self.enter(alloc, next.number);
                    fill(&mut self.body, alloc, bytes, start, len)?;
                }
                6..=7 => {
                    self.enter(alloc, next.number);
                    fill(&mut self.tail, alloc, bytes, start, len)?;
                }
                _ => {}
            }
        }
        Ok(())
    }
}
