//! `HeaderValueOption` and `HeaderMutation`, as they are read.

use crate::answer::HeaderMutation;
use crate::fault::MsgFault;
use crate::field::text;
use crate::flag::FlagParts;
use crate::header::HeaderParts;
use crate::lists::{NameList, SetField, SetList};
use crate::message::{Message, fill, read};
use pb_wire::{Payload, Record};
use std::alloc::Global;

/// What the records of a `HeaderValueOption` so far say.
#[derive(Drop)]
pub struct SetParts {
    pub header: HeaderParts,
    pub append: Option<FlagParts>,
    pub action: u8,
}

impl Message for SetParts {
    ghost use Rattle.std.specs.Prelude.{[]};
    ghost use Rattle.ext_msgs.specs.MessageFault.{set_fault};
    ghost use Rattle.ext_msgs.specs.Parts.{set_parts, set_add};

    ghost fault = { set_fault };

    ghost start = { set_parts [] };

    ghost add = { set_add };

    fn empty(alloc: Global) -> SetParts {
        SetParts {
            header: HeaderParts::empty(alloc),
            append: None,
            action: 0,
        }
    }

    fn take(&mut self, alloc: Global, bytes: &[u8], next: Record) -> Result<(), MsgFault> {
        match next.payload {
            Payload::Span(start, len) => match next.number {
                1 => fill(&mut self.header, alloc, bytes, start, len)?,
                2 => {
                    let mut flag = self.append.unwrap_or(FlagParts { value: false });
                    fill(&mut flag, alloc, bytes, start, len)?;
                    self.append = Some(flag);
                }
                _ => {}
            },
            Payload::Varint(number) => {
                if next.number == 3 {
                    let action = number % 0x1_0000_0000;
                    if action > 3 {
                        return Err(MsgFault::BadNumber(next.place));
                    }
                    self.action = action as u8;
                }
            }
            _ => {}
        }
        Ok(())
    }
}

impl SetParts {
    ghost use Rattle.std.specs.Prelude.{◌≡◌};
    ghost use Rattle.ext_msgs.specs.Parts.{finished_set};

    /// The field to set: `append` decides where it is there, and `append_action` else.
    fn finish(self) -> SetField
        ensures { result ≡ finished_set self }
    {
        let SetParts {
            header,
            append,
            action,
        } = self;
        let HeaderParts {
            key,
            value,
            raw_value,
        } = header;
        let action = match append {
            Some(FlagParts { value: true }) => 0,
            Some(FlagParts { value: false }) => 2,
            None => action,
        };
        SetField {
            name: key,
            value: if raw_value.is_empty() {
                value
            } else {
                raw_value
            },
            action,
        }
    }
}

impl Message for HeaderMutation {
    ghost use Rattle.std.specs.Prelude.{[]};
    ghost use Rattle.ext_msgs.specs.MessageFault.{mutation_fault};
    ghost use Rattle.ext_msgs.specs.MessageValue.{mutation};
    ghost use Rattle.ext_msgs.specs.Parts.{mutation_add};

    ghost fault = { mutation_fault };

    ghost start = { mutation [] };

    ghost add = { mutation_add };

    fn empty(alloc: Global) -> HeaderMutation {
        HeaderMutation {
            set: SetList::new(alloc),
            remove: NameList::new(alloc),
        }
    }

    fn take(&mut self, alloc: Global, bytes: &[u8], next: Record) -> Result<(), MsgFault> {
        if let Payload::Span(start, len) = next.payload {
            match next.number {
                1 => {
                    let parts: SetParts = read(alloc, bytes, start, len)?;
                    self.set.push(parts.finish())?;
                }
                2 => {
                    let name = text(alloc, bytes, next.place, start, len)?;
                    self.remove.push(name)?;
                }
                _ => {}
            }
        }
        Ok(())
    }
}
