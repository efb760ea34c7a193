//! A stage that answers by rules.

ghost use Rattle.std.specs.Prelude.{◌≡◌, ◌∷◌, [], List, IfOk, OnOk, OnErr};
ghost use Rattle.rule_book.specs.Stages.{Conduct, StageCall, Asked, Over};
ghost use Rattle.rule_book.specs.Ruled.{ruled, member_ruled};
ghost use Rattle.rule_book.specs.Given.{RuleStands};

use crate::book::RuleBook;
use crate::given::Given;
use crate::ruled::{change_body, change_head, change_trailers, is_replied, reply};
use crate::stage::{Stage, Verdict};
use ext_msgs::{Answer, Ask, Member};
use pb_wire::Duplicate;
use std::alloc::{AllocError, Global};

/// A stage that answers every ask by rules.
#[derive(Drop)]
pub struct RuleStage {
    alloc: Global,
    book: RuleBook,
    request_given: Given,
    response_given: Given,
}

impl RuleStage {
    /// A stage that was asked nothing.
    pub fn new(alloc: Global, book: RuleBook) -> RuleStage
        ensures { RuleStands result (ruled book) [] }
    {
        RuleStage {
            alloc,
            book,
            request_given: Given::new(alloc),
            response_given: Given::new(alloc),
        }
    }

    fn member(&self, stream: u32, ask: &Ask) -> Result<Member, AllocError>
        ensures { (conduct : Conduct) (past : List StageCall) → RuleStands self.now conduct past
            → IfOk result (λ m. m ≡ member_ruled self.now.book past stream ask.now) }
    {
        let request = &self.book.request;
        let response = &self.book.response;
        match ask {
            Ask::RequestHeaders(head, _) => {
                if is_replied(request, head) {
                    let body = request.reply_body.copy()?;
                    return Ok(reply(self.alloc, request.reply_status, body));
                }
                let common = change_head(self.alloc, request)?;
                Ok(Member::RequestHeaders(common))
            }
            Ask::ResponseHeaders(head, _) => {
                if is_replied(response, head) {
                    let body = response.reply_body.copy()?;
                    return Ok(reply(self.alloc, response.reply_status, body));
                }
                let common = change_head(self.alloc, response)?;
                Ok(Member::ResponseHeaders(common))
            }
            Ask::RequestBody(body, _) => {
                let is_first = !self.request_given.has(stream);
                let common = change_body(self.alloc, request, is_first, body)?;
                Ok(Member::RequestBody(common))
            }
            Ask::ResponseBody(body, _) => {
                let is_first = !self.response_given.has(stream);
                let common = change_body(self.alloc, response, is_first, body)?;
                Ok(Member::ResponseBody(common))
            }
            Ask::RequestTrailers(_) => {
                let mutation = change_trailers(self.alloc, request)?;
                Ok(Member::RequestTrailers(mutation))
            }
            Ask::ResponseTrailers(_) => {
                let mutation = change_trailers(self.alloc, response)?;
                Ok(Member::ResponseTrailers(mutation))
            }
        }
    }

    fn mark(&mut self, stream: u32, ask: &Ask) -> Result<(), AllocError>
        ensures stands { (conduct : Conduct) (past : List StageCall) → RuleStands self.old conduct past
            → OnOk result (RuleStands self.new conduct (Asked stream ask.now ∷ past)) }
        ensures kept { (conduct : Conduct) (past : List StageCall) → RuleStands self.old conduct past
            → OnErr result (RuleStands self.new conduct past) }
    {
        match ask {
            Ask::RequestBody(_, _) => {
                self.request_given.mark(self.book.request.body, stream)?;
                Ok(())
            }
            Ask::ResponseBody(_, _) => {
                self.response_given.mark(self.book.response.body, stream)?;
                Ok(())
            }
            // Prover: `|` would join these arms.
            Ask::RequestHeaders(_, _) => Ok(()),
            Ask::ResponseHeaders(_, _) => Ok(()),
            Ask::RequestTrailers(_) => Ok(()),
            Ask::ResponseTrailers(_) => Ok(()),
        }
    }
}

impl Stage for RuleStage {
    ghost stands = { RuleStands };

    fn ask(&mut self, stream: u32, ask: &Ask) -> Verdict {
        let Ok(member) = self.member(stream, ask) else {
            return Verdict::Memory;
        };
        match self.mark(stream, ask) {
            Ok(()) => Verdict::Answer(Answer {
                member,
                modes: None,
                timeout: None,
            }),
            Err(_) => Verdict::Memory,
        }
    }

    fn over(&mut self, stream: u32) {
        self.request_given.remove(stream);
        self.response_given.remove(stream);
    }
}
