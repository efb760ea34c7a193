//! What the processor says.

ghost use Rattle.std.specs.Prelude.{◌≡◌, ◌∷◌, ◌≤◌, Bool, List, ℕ, None, Some, Result, Err, is_some, length};
ghost use Rattle.std.specs.Prelude.{OnOk, OnErr};
ghost use Rattle.ext_msgs.specs.Messages.{IsRead};
ghost use Rattle.ext_msgs.specs.declared.answer.Answer.{Answer};
ghost use Rattle.ext_msgs.specs.declared.fault.MsgFault.{MsgFault};
ghost use Rattle.http_model.specs.declared.types.Direction.TheVariants.{Request, Response};
ghost use Rattle.filter_model.specs.Account.{ExchangeAccount, course};
ghost use Rattle.filter_model.specs.Answers.{override_of};
ghost use Rattle.filter_model.specs.Cut.{of_trailers};
ghost use Rattle.filter_model.specs.Half.{kind_numbered};
ghost use Rattle.filter_model.specs.Config.{FilterConfig};
ghost use Rattle.filter_model.specs.Right.{Call, Stepped, Failed};
ghost use Rattle.filter_model.specs.Step.{with_ending};
ghost use Rattle.filter_model.specs.View.{Answered};
ghost use Rattle.exchange.specs.Answering.{CanHear, EndsBy, ImmediatelyTo, IsToPart, RefusedTo, modes_in};
ghost use Rattle.exchange.specs.Heard.{heard_in, if_read};
ghost use Rattle.exchange.specs.Passing.{Passable};
ghost use Rattle.exchange.specs.Stands.{AtRest, IsGivenBy, IsConfigured, IsAfter, IsAfterSome};

use crate::exchange::Exchange;
use crate::fate::{Fate, GivenWhole};
use crate::modes::both_modes;
use crate::reply::immediate_bytes;
use ext_msgs::{
    Answer, BodyChange, Common, HeaderMutation, Immediate, Member, ModeNumbers, MsgFault,
    PartAnswer, PartModes, read_answer,
};
use header_mutation::HalfFault;
use pb_wire::Blob;
use std::alloc::AllocError;

// An answer about trailers says what to do with their fields.
fn of_trailers(headers: HeaderMutation) -> PartAnswer
    ensures part { result.part ≡ 2 }
    ensures common { result.common ≡ of_trailers headers }
{
    PartAnswer {
        part: 2,
        common: Common {
            replace: false,
            headers,
            body: BodyChange::Absent,
        },
    }
}

// The modes of the request among those of both.
fn of_request(both: Option<(PartModes, PartModes)>) -> Option<PartModes>
    ensures { result ≡ modes_in Request both }
{
    match both {
        Some((request, _)) => Some(request),
        None => None,
    }
}

// The modes of the response among those of both.
fn of_response(both: Option<(PartModes, PartModes)>) -> Option<PartModes>
    ensures { result ≡ modes_in Response both }
{
    match both {
        Some((_, response)) => Some(response),
        None => None,
    }
}

// Whether bytes are refused for what they say.
fn unless_memory(fault: MsgFault) -> Result<(), AllocError>
    ensures { (told : Result Answer MsgFault) → IsRead (Err fault) told → OnOk result (if_read told ≡ None) }
{
    match fault {
        MsgFault::Memory => Err(AllocError),
        MsgFault::Wire(_) => Ok(()),
        MsgFault::Utf8(_) => Ok(()),
        MsgFault::BadNumber(_) => Ok(()),
        MsgFault::NoMember => Ok(()),
    }
}

impl Exchange {
    /// A message of the processor. Once both messages were given, or the rest passes, it isn't heard.
    pub(crate) fn answer(&mut self, bytes: &[u8]) -> Result<(), AllocError>
        requires { IsAfterSome self.old (λ c h. length bytes.now ≤ c.course.answer_limit) }
        ensures stands { (c : FilterConfig) (h : List Call) → IsAfter c h self.old
            → length bytes.now ≤ c.course.answer_limit
            → OnOk result (IsAfter c (Stepped (Answered (heard_in bytes.now)) ∷ h) self.new) }
        ensures failed { (c : FilterConfig) (h : List Call) → IsAfter c h self.old
            → length bytes.now ≤ c.course.answer_limit
            → OnErr result (IsAfter c (Failed ∷ h) self.new) }
    {
        if !self.is_live() {
            return Ok(());
        }
        if !self.is_heard() {
            self.settle_ending();
            return Ok(());
        }
        match read_answer(self.alloc, bytes) {
            Ok(answer) => {
                self.heard(answer)?;
                Ok(())
            }
            Err(fault) => {
                unless_memory(fault)?;
                self.fail(500);
                Ok(())
            }
        }
    }

    // An answer that could be read. With a timeout override it is that alone.
    fn heard(&mut self, answer: Answer) -> Result<(), AllocError>
        requires { IsAfterSome self.old (λ c h. CanHear c h answer) }
        ensures stands { (c : FilterConfig) (h : List Call) → IsAfter c h self.old → CanHear c h answer
            → OnOk result (IsAfter c (Stepped (Answered (Some answer)) ∷ h) self.new) }
        ensures failed { (c : FilterConfig) (h : List Call) → IsAfter c h self.old → CanHear c h answer
            → OnErr result (IsAfter c (Failed ∷ h) self.new) }
    {
        let Answer {
            member,
            modes,
            timeout,
        } = answer;
        if let Some(span) = timeout {
            self.extend(span);
            return Ok(());
        }
        match member {
            Member::Unset => {
                self.fail(500);
                Ok(())
            }
            Member::Immediate(reply) => {
                self.immediate(reply)?;
                Ok(())
            }
            Member::RequestHeaders(common) => {
                self.to_request(&PartAnswer { part: 0, common }, modes)?;
                Ok(())
            }
            Member::RequestBody(common) => {
                self.to_request(&PartAnswer { part: 1, common }, modes)?;
                Ok(())
            }
            Member::RequestTrailers(headers) => {
                self.to_request(&of_trailers(headers), modes)?;
                Ok(())
            }
            Member::ResponseHeaders(common) => {
                self.to_response(&PartAnswer { part: 0, common }, modes)?;
                Ok(())
            }
            Member::ResponseBody(common) => {
                self.to_response(&PartAnswer { part: 1, common }, modes)?;
                Ok(())
            }
            Member::ResponseTrailers(headers) => {
                self.to_response(&of_trailers(headers), modes)?;
                Ok(())
            }
        }
    }

    // The modes of request and response that an answer brings, where it may.
    fn overrides(&self, part: u8, modes: Option<ModeNumbers>) -> Option<(PartModes, PartModes)>
        ensures { (c : FilterConfig) → self.now.settings.allow_override ≡ c.allow_override
            → result ≡ override_of c (kind_numbered part) modes }
    {
        if part != 0 || !self.settings.allow_override {
            return None;
        }
        match modes {
            Some(modes) => both_modes(&modes),
            None => None,
        }
    }

    // An answer about a part of the request. Other modes hold before it counts, so that it is judged by them.
    fn to_request(
        &mut self,
        answer: &PartAnswer,
        modes: Option<ModeNumbers>,
    ) -> Result<(), AllocError>
        requires { IsAfterSome self.old (λ c h. (x : Answer) × IsToPart c h x Request answer.now modes) }
        ensures stands { (c : FilterConfig) (h : List Call) (x : Answer) → IsAfter c h self.old
            → IsToPart c h x Request answer.now modes
            → OnOk result (IsAfter c (Stepped (Answered (Some x)) ∷ h) self.new) }
        ensures failed { (c : FilterConfig) (h : List Call) (x : Answer) → IsAfter c h self.old
            → IsToPart c h x Request answer.now modes → OnErr result (IsAfter c (Failed ∷ h) self.new) }
    {
        let given = self.given_whole();
        let committed = self.response.half.is_committed();
        let before = self.request.half.unhanded();
        let both = self.overrides(answer.part, modes);
        if let Err(fault) = self.request.answer(answer, of_request(both)) {
            self.refuse(fault, committed, given)?;
            return Ok(());
        }
        if self.request.half.over_limit() {
            self.reply(413, committed, given);
            self.settle_ending();
            return Ok(());
        }
        // Those of the response come before its head, so that all of them count.
        let other = of_response(both);
        self.response.settle(other.is_some(), other);
        self.request.extended = false;
        let made = self.request.half.unhanded() - before;
        self.request_asked(made, true);
        self.settle_ending();
        Ok(())
    }

    // An answer about a part of the response.
    fn to_response(
        &mut self,
        answer: &PartAnswer,
        modes: Option<ModeNumbers>,
    ) -> Result<(), AllocError>
        requires { IsAfterSome self.old (λ c h. (x : Answer) × IsToPart c h x Response answer.now modes) }
        ensures stands { (c : FilterConfig) (h : List Call) (x : Answer) → IsAfter c h self.old
            → IsToPart c h x Response answer.now modes
            → OnOk result (IsAfter c (Stepped (Answered (Some x)) ∷ h) self.new) }
        ensures failed { (c : FilterConfig) (h : List Call) (x : Answer) → IsAfter c h self.old
            → IsToPart c h x Response answer.now modes → OnErr result (IsAfter c (Failed ∷ h) self.new) }
    {
        let given = self.given_whole();
        let committed = self.response.half.is_committed();
        let before = self.response.half.unhanded();
        let both = self.overrides(answer.part, modes);
        if let Err(fault) = self.response.answer(answer, of_response(both)) {
            self.refuse(fault, committed, given)?;
            return Ok(());
        }
        if self.response.half.over_limit() {
            self.reply(500, committed, given);
            self.settle_ending();
            return Ok(());
        }
        self.response.extended = false;
        let made = self.response.half.unhanded() - before;
        self.response_asked(made, true);
        self.settle_ending();
        Ok(())
    }

    // An answer that its half refuses. What a rule forbids ends the exchange whatever the failure mode is.
    fn refuse(
        &mut self,
        fault: HalfFault,
        committed: bool,
        given: GivenWhole,
    ) -> Result<(), AllocError>
        requires { Passable self.old }
        ensures ties { (c : FilterConfig) (a b : ExchangeAccount) (n : ℕ) (ends : List Bool) → IsConfigured c self.old
            → AtRest c a n ends self.old → committed ≡ is_some (course Response a).head → IsGivenBy c a given
            → RefusedTo c fault a b → OnOk result (AtRest c (with_ending c b) n ends self.new) }
        ensures failed { OnErr result (self.new ≡ self.old) }
        ensures settings { self.new.settings ≡ self.old.settings }
    {
        match fault {
            HalfFault::Memory => Err(AllocError),
            HalfFault::Spurious | HalfFault::Malformed(_) => {
                self.fail(500);
                Ok(())
            }
            HalfFault::Disallowed(_) => {
                self.reply(500, committed, given);
                self.settle_ending();
                Ok(())
            }
        }
    }

    // A reply in place of the response.
    fn immediate(&mut self, reply: Immediate) -> Result<(), AllocError>
        requires { Passable self.old }
        ensures ties { (c : FilterConfig) (a b : ExchangeAccount) (n : ℕ) (ends : List Bool) → IsConfigured c self.old
            → AtRest c a n ends self.old → ImmediatelyTo c reply a b
            → OnOk result (AtRest c (with_ending c b) n ends self.new) }
        ensures failed { OnErr result (self.new ≡ self.old) }
        ensures settings { self.new.settings ≡ self.old.settings }
    {
        if self.settings.no_immediate {
            self.fail(500);
            return Ok(());
        }
        let bytes = immediate_bytes(self.alloc, self.to_head, &reply)?;
        match bytes {
            None => {
                self.fail(500);
                Ok(())
            }
            Some(bytes) => {
                self.reply_with(bytes);
                Ok(())
            }
        }
    }

    // The exchange ends with this reply, or, where the response's head can go, with an abort.
    fn reply_with(&mut self, bytes: Blob)
        requires { Passable self.old }
        ensures ties { (c : FilterConfig) (a b : ExchangeAccount) (n : ℕ) (ends : List Bool)
            → AtRest c a n ends self.old → EndsBy c bytes a b → AtRest c (with_ending c b) n ends self.new }
        ensures settings { self.new.settings ≡ self.old.settings }
    {
        let given = self.given_whole();
        if self.response.half.is_committed() {
            self.fate = Fate::Aborted(given);
            self.settle_ending();
            return;
        }
        self.fate = Fate::Replied(given);
        self.response.outlet.reply(bytes);
        self.settle_ending();
    }
}
