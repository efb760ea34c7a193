//! What the processor's stream is given.

ghost use Rattle.std.specs.Prelude.{◌≡◌, ◌∷◌, ◌<◌, ◌≤◌, ◌+◌, List, Some, None, length, filter_map, IfOk, OnErr, OnOk};
ghost use Rattle.filter_model.specs.Config.{FilterConfig};
ghost use Rattle.filter_model.specs.Right.{Call, Stepped, Nexted, Failed, account, ask_due, ask_given, due, end_due};
ghost use Rattle.filter_model.specs.View as view;
ghost use Rattle.http_model.specs.declared.types.Direction.TheVariants.{Request, Response};
ghost use Rattle.exchange.specs.Stands.{IsAfter, IsAfterSome};
ghost use Rattle.exchange.specs.Moves.{noted, request_noted, response_noted};
ghost use Rattle.exchange.specs.Asking.{Sends, asked_by, marked_sent, next_made};

use crate::exchange::Exchange;
use ext_msgs::write_ask;
use filter_model::Next;
use http_model::Direction;
use pb_wire::Blob;
use std::alloc::AllocError;

impl Exchange {
    /// What the processor's stream is given next: the asks in the order in which they were made, and then its end.
    pub fn next(&mut self) -> Result<Next, AllocError>
        requires { IsAfterSome self.old (λ c h. Unit {0}) }
        ensures due { (c : FilterConfig) (h : List Call) → IsAfter c h self.old
            → IfOk result (λ n. n ≡ due (ask_due c h) (end_due c h)) }
        ensures stands { (c : FilterConfig) (h : List Call) → IsAfter c h self.old
            → IfOk result (λ n. IsAfter c (Nexted n ∷ h) self.new) }
        ensures failed { (c : FilterConfig) (h : List Call) → IsAfter c h self.old
            → OnErr result (IsAfter c (Failed ∷ h) self.new) }
    {
        if let Some(bytes) = self.next_ask()? {
            return Ok(Next::Ask(bytes));
        }
        let end = self.next_end();
        Ok(end)
    }

    // The end, once, where it is due.
    fn next_end(&mut self) -> Next
        ensures due { (c : FilterConfig) (h : List Call) → IsAfter c h self.old → ask_due c h ≡ None
            → result ≡ due (ask_due c h) (end_due c h) }
        ensures stands { (c : FilterConfig) (h : List Call) → IsAfter c h self.old → ask_due c h ≡ None
            → IsAfter c (Nexted result ∷ h) self.new }
    {
        if self.stream.ended {
            return Next::Nothing;
        }
        match self.stream.ending {
            Some(finished) => {
                self.stream.ended = true;
                end_of(finished)
            }
            None => Next::Nothing,
        }
    }

    // The bytes of the oldest ask that wasn't given. It is kept until they are written.
    fn next_ask(&mut self) -> Result<Option<Blob>, AllocError>
        requires { IsAfterSome self.old (λ c h. Unit {0}) }
        ensures due { (c : FilterConfig) (h : List Call) → IsAfter c h self.old
            → IfOk result (λ bytes. bytes ≡ ask_due c h) }
        ensures stands { (c : FilterConfig) (h : List Call) → IsAfter c h self.old
            → IfOk result (λ bytes. IsAfter c (asked_by bytes h) self.new) }
        ensures kept { (c : FilterConfig) (h : List Call) → IsAfter c h self.old
            → OnErr result (IsAfter c h self.new) }
    {
        self.hand_out()?;
        let bytes = match &self.ready {
            Some(ask) => write_ask(self.alloc, ask)?,
            None => return Ok(None),
        };
        self.ready = None;
        self.unsent += 1;
        Ok(Some(bytes))
    }

    // The half of the oldest ask that wasn't given hands it out.
    fn hand_out(&mut self) -> Result<(), AllocError>
        requires { IsAfterSome self.old (λ c h. Unit {0}) }
        ensures ready { (c : FilterConfig) (h : List Call) → IsAfter c h self.old
            → OnOk result (self.new.ready ≡ next_made c h) }
        ensures stands { (c : FilterConfig) (h : List Call) → IsAfter c h self.old
            → OnOk result (IsAfter c h self.new) }
        ensures kept { OnErr result (self.new ≡ self.old) }
    {
        if self.ready.is_some() {
            return Ok(());
        }
        match self.order.at(self.unsent) {
            None => Ok(()),
            Some(Direction::Request) => {
                let ask = self.request.half.next_ask()?;
                self.ready = ask;
                Ok(())
            }
            Some(Direction::Response) => {
                let ask = self.response.half.next_ask()?;
                self.ready = ask;
                Ok(())
            }
        }
    }

    /// The oldest ask that wasn't sent was sent. Once the exchange has ended its half needn't know.
    pub(crate) fn sent(&mut self)
        requires { IsAfterSome self.old (λ c h. (account c h).sent < length (filter_map ask_given h)) }
        ensures { (c : FilterConfig) (h : List Call) → IsAfter c h self.old
            → (account c h).sent < length (filter_map ask_given h)
            → IsAfter c (Stepped view.Sent ∷ h) self.new }
    {
        if !self.is_live() {
            self.mark_sent();
            return;
        }
        match self.order.at(0) {
            Some(Direction::Request) => self.request_sent(),
            Some(Direction::Response) => self.response_sent(),
            None => {}
        }
    }

    // The oldest ask waits no more.
    fn mark_sent(&mut self)
        requires { 1 ≤ self.old.unsent }
        ensures { self.new ≡ marked_sent self.old }
    {
        self.order.drop_first();
        self.unsent -= 1;
    }

    fn request_sent(&mut self)
        requires { IsAfterSome self.old (Sends Request) }
        ensures { (c : FilterConfig) (h : List Call) → IsAfter c h self.old → Sends Request c h
            → IsAfter c (Stepped view.Sent ∷ h) self.new }
    {
        self.mark_sent();
        let before = self.request.half.unhanded();
        let idle = self.request.half.asks_out() == 0;
        self.request.half.sent();
        let made = self.request.half.unhanded() - before;
        self.request_asked(made, idle);
        self.settle_ending();
    }

    fn response_sent(&mut self)
        requires { IsAfterSome self.old (Sends Response) }
        ensures { (c : FilterConfig) (h : List Call) → IsAfter c h self.old → Sends Response c h
            → IsAfter c (Stepped view.Sent ∷ h) self.new }
    {
        self.mark_sent();
        let before = self.response.half.unhanded();
        let idle = self.response.half.asks_out() == 0;
        self.response.half.sent();
        let made = self.response.half.unhanded() - before;
        self.response_asked(made, idle);
        self.settle_ending();
    }

    /// So many asks more were made of the request. The first of them starts its timer where none was out.
    pub(crate) fn request_asked(&mut self, made: u32, idle: bool)
        requires { length self.old.order + made ≤ 8 }
        ensures { self.new ≡ request_noted made idle self.old }
    {
        self.note(Direction::Request, made);
        if idle {
            self.request.deadline = self.clock.checked_add(self.settings.timeout_ms);
        }
    }

    /// So many asks more were made of the response. The first of them starts its timer where none was out.
    pub(crate) fn response_asked(&mut self, made: u32, idle: bool)
        requires { length self.old.order + made ≤ 8 }
        ensures { self.new ≡ response_noted made idle self.old }
    {
        self.note(Direction::Response, made);
        if idle {
            self.response.deadline = self.clock.checked_add(self.settings.timeout_ms);
        }
    }

    fn note(&mut self, direction: Direction, made: u32)
        requires { length self.old.order + made ≤ 8 }
        ensures { self.new ≡ noted direction made self.old }
    {
        self.order.push_many(direction, made);
        self.stream.asked = self.stream.asked || made > 0;
    }
}

fn end_of(finished: bool) -> Next
    ensures { result ≡ due None (Some finished) }
{
    if finished { Next::Finish } else { Next::Reset }
}
