//! `ProcessingResponse`, as it is read.

use crate::answer::{Answer, Immediate, Member, Span};
use crate::common::{ResponseParts, TrailerParts};
use crate::fault::MsgFault;
use crate::immediate::ImmediateParts;
use crate::message::{Message, fill};
use crate::overrides::ModeParts;
use crate::place::last_place;
use pb_wire::{Payload, Record};
use std::alloc::Global;

/// The member of the oneof that was set last: its number, or 0, and what its occurrences so far say.
#[derive(Drop)]
pub struct MemberParts {
    pub number: u32,
    pub response: ResponseParts,
    pub trailers: TrailerParts,
    pub immediate: ImmediateParts,
}

impl MemberParts {
    ghost use Rattle.std.specs.Prelude.{◌≡◌};
    ghost use Rattle.ext_msgs.specs.Parts.{fresh_member, entered_member};

    fn fresh(alloc: Global, number: u32) -> MemberParts
        ensures { result ≡ fresh_member number }
    {
        MemberParts {
            number,
            response: ResponseParts::empty(alloc),
            trailers: TrailerParts::empty(alloc),
            immediate: ImmediateParts::empty(alloc),
        }
    }

    /// Begins the member of this number, unless it was set last.
    fn enter(&mut self, alloc: Global, number: u32)
        ensures { self.new ≡ entered_member self.old number }
    {
        if self.number != number {
            *self = MemberParts::fresh(alloc, number);
        }
    }
}

impl Message for MemberParts {
    ghost use Rattle.std.specs.Prelude.{[]};
    ghost use Rattle.ext_msgs.specs.MessageFault.{member_fault};
    ghost use Rattle.ext_msgs.specs.Parts.{member_parts, member_add};

    ghost fault = { member_fault };

    ghost start = { member_parts [] };

    ghost add = { member_add };

    fn empty(alloc: Global) -> MemberParts {
        MemberParts::fresh(alloc, 0)
    }

    fn take(&mut self, alloc: Global, bytes: &[u8], next: Record) -> Result<(), MsgFault> {
        if let Payload::Span(start, len) = next.payload {
            match next.number {
                1..=4 => {
                    self.enter(alloc, next.number);
                    fill(&mut self.response, alloc, bytes, start, len)?;
                }
                5..=6 => {
                    self.enter(alloc, next.number);
                    fill(&mut self.trailers, alloc, bytes, start, len)?;
                }
                7 => {
                    self.enter(alloc, next.number);
                    fill(&mut self.immediate, alloc, bytes, start, len)?;
                }
                _ => {}
            }
        }
        Ok(())
    }
}

/// What the records of a `ProcessingResponse` so far say.
#[derive(Drop)]
pub struct AnswerParts {
    pub member: MemberParts,
    pub modes: Option<ModeParts>,
    pub timeout: Option<Span>,
}

impl Message for AnswerParts {
    ghost use Rattle.std.specs.Prelude.{[]};
    ghost use Rattle.ext_msgs.specs.MessageFault.{answer_fault};
    ghost use Rattle.ext_msgs.specs.Parts.{answer_parts, answer_add};

    ghost fault = { answer_fault };

    ghost start = { answer_parts [] };

    ghost add = { answer_add };

    fn empty(alloc: Global) -> AnswerParts {
        AnswerParts {
            member: MemberParts::empty(alloc),
            modes: None,
            timeout: None,
        }
    }

    fn take(&mut self, alloc: Global, bytes: &[u8], next: Record) -> Result<(), MsgFault> {
        if let Payload::Span(start, len) = next.payload {
            match next.number {
                9 => {
                    let mut modes = self.modes.unwrap_or(ModeParts::empty(alloc));
                    fill(&mut modes, alloc, bytes, start, len)?;
                    self.modes = Some(modes);
                }
                10 => {
                    let mut timeout = self.timeout.unwrap_or(Span::empty(alloc));
                    fill(&mut timeout, alloc, bytes, start, len)?;
                    self.timeout = Some(timeout);
                }
                _ => self.member.take(alloc, bytes, next)?,
            }
        }
        Ok(())
    }
}

impl AnswerParts {
    ghost use Rattle.std.specs.Prelude.{◌≡◌, ◌<◌, ◌^◌, length};
    ghost use Rattle.ext_msgs.specs.Fields.{last_place};
    ghost use Rattle.ext_msgs.specs.Parts.{finished_answer, finished_member};

    /// The member, with the faults that stand only after all records.
    fn member_value(member: MemberParts, timed: bool, bytes: &[u8]) -> Result<Member, MsgFault>
        requires { length bytes.now < 2 ^ 32 }
        ensures { result ≡ finished_member (last_place 7 (length bytes.now) bytes.now) timed member }
    {
        let MemberParts {
            number,
            response,
            trailers,
            immediate,
        } = member;
        match number {
            1 => Ok(Member::RequestHeaders(response.common)),
            2 => Ok(Member::ResponseHeaders(response.common)),
            3 => Ok(Member::RequestBody(response.common)),
            4 => Ok(Member::ResponseBody(response.common)),
            5 => Ok(Member::RequestTrailers(trailers.mutation)),
            6 => Ok(Member::ResponseTrailers(trailers.mutation)),
            7 => match immediate.status.code {
                None => Err(MsgFault::BadNumber(last_place(bytes, 7))),
                Some(code) => Ok(Member::Immediate(Immediate {
                    code,
                    headers: immediate.headers,
                    body: immediate.body,
                })),
            },
            _ => {
                if timed {
                    Ok(Member::Unset)
                } else {
                    Err(MsgFault::NoMember)
                }
            }
        }
    }

    /// The whole answer, with the faults that stand only after all records.
    pub fn finish(self, bytes: &[u8]) -> Result<Answer, MsgFault>
        requires { length bytes.now < 2 ^ 32 }
        ensures { result ≡ finished_answer (last_place 7 (length bytes.now) bytes.now) self }
    {
        let AnswerParts {
            member,
            modes,
            timeout,
        } = self;
        let member = AnswerParts::member_value(member, timeout.is_some(), bytes)?;
        let modes = match modes {
            None => None,
            Some(modes) => Some(modes.finish()),
        };
        Ok(Answer {
            member,
            modes,
            timeout,
        })
    }
}
