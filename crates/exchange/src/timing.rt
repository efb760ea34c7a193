//! Time, and what becomes of the stream to the processor.

ghost use Rattle.std.specs.Prelude.{◌≡◌, ◌∷◌, Bool, List, Option, true, ℕ};
ghost use Rattle.http_model.specs.declared.types.Direction.{Direction};
ghost use Rattle.filter_model.specs.Account.{ExchangeAccount};
ghost use Rattle.filter_model.specs.Config.{FilterConfig};
ghost use Rattle.filter_model.specs.Right.{Call, Stepped, account};
ghost use Rattle.filter_model.specs.Cut.{is_late};
ghost use Rattle.filter_model.specs.Step.{is_live, with_ending};
ghost use Rattle.filter_model.specs.View as view;
ghost use Rattle.exchange.specs.Answering.{ExtendsTo, FailsIfHeard, FailsTo, HasConfig, extended_in};
ghost use Rattle.exchange.specs.Passing.{Passable};
ghost use Rattle.exchange.specs.Stands.{AtRest, FlowTies, IsConfigured, IsAfterSome, IsAfter};

use crate::exchange::Exchange;
use crate::fate::Fate;
use crate::flow::Flow;
use crate::modes::valid_ms;
use ext_msgs::Span;

// The timer of a direction fires where an ask is out and its time has come.
fn is_late(flow: &Flow, clock: u64) -> bool
    ensures { (c : FilterConfig) (d : Direction) (a : ExchangeAccount) (n : ℕ) (w : Option ℕ) →
        FlowTies c d a a n w flow.now → is_live a.fate ≡ true → clock ≡ a.now → result ≡ is_late a d }
{
    if flow.half.asks_out() == 0 {
        return false;
    }
    match flow.deadline {
        Some(deadline) => deadline <= clock,
        None => false,
    }
}

impl Exchange {
    /// The clock, in milliseconds. It never goes back.
    pub(crate) fn tick(&mut self, now: u64)
        requires { IsAfterSome self.old (λ c h. Unit {0}) }
        ensures { (c : FilterConfig) (h : List Call) → IsAfter c h self.old
            → IsAfter c (Stepped (view.Tick now) ∷ h) self.new }
    {
        if !self.is_live() {
            return;
        }
        self.clock = self.clock.max(now);
        if is_late(&self.request, self.clock) {
            self.fail_if_heard(504);
            return;
        }
        if is_late(&self.response, self.clock) {
            self.fail_if_heard(504);
            return;
        }
        self.settle_ending();
    }

    /// The stream was closed: with grpc-status 0 the rest passes, else the processor failed. The first closing counts.
    pub(crate) fn closed(&mut self, clean: bool)
        requires { IsAfterSome self.old (λ c h. Unit {0}) }
        ensures { (c : FilterConfig) (h : List Call) → IsAfter c h self.old
            → IsAfter c (Stepped (view.Closed clean) ∷ h) self.new }
    {
        if !self.is_live() {
            return;
        }
        self.stream.closed = Some(self.stream.closed.unwrap_or(clean));
        if !clean {
            self.fail_if_heard(500);
            return;
        }
        if self.is_heard() {
            self.let_pass();
            self.settle_ending();
            return;
        }
        self.settle_ending();
    }

    /// No stream to the processor could be opened.
    pub(crate) fn no_stream(&mut self)
        requires { IsAfterSome self.old (λ c h. Unit {0}) }
        ensures { (c : FilterConfig) (h : List Call) → IsAfter c h self.old
            → IsAfter c (Stepped view.NoStream ∷ h) self.new }
    {
        if !self.is_live() {
            return;
        }
        self.stream.unopened = true;
        self.fail_if_heard(500);
    }

    /// The processor sent a message that is too long.
    pub(crate) fn too_long(&mut self)
        requires { IsAfterSome self.old (λ c h. Unit {0}) }
        ensures { (c : FilterConfig) (h : List Call) → IsAfter c h self.old
            → IsAfter c (Stepped view.TooLong ∷ h) self.new }
    {
        if !self.is_live() {
            return;
        }
        self.fail_if_heard(500);
    }

    /// Memory was refused.
    pub(crate) fn starved(&mut self)
        ensures { (c : FilterConfig) (h : List Call) → IsAfter c h self.old
            → IsAfter c (Stepped view.Starved ∷ h) self.new }
    {
        if !self.is_live() {
            return;
        }
        if self.is_finished() {
            self.settle_ending();
            return;
        }
        let given = self.given_whole();
        self.fate = Fate::Aborted(given);
        self.settle_ending();
    }

    // The processor failed, unless it isn't heard any more.
    fn fail_if_heard(&mut self, status: u32)
        requires { Passable self.old }
        ensures ties { (c : FilterConfig) (a b : ExchangeAccount) (n : ℕ) (ends : List Bool) → IsConfigured c self.old
            → AtRest c a n ends self.old → FailsIfHeard c status a b → AtRest c (with_ending c b) n ends self.new }
        ensures settings { self.new.settings ≡ self.old.settings }
    {
        if self.is_heard() {
            self.fail(status);
            return;
        }
        self.settle_ending();
    }

    /// The processor failed: the rest passes, or a reply of this status ends the exchange, as the failure mode says.
    pub(crate) fn fail(&mut self, status: u32)
        requires { Passable self.old }
        ensures ties { (c : FilterConfig) (a b : ExchangeAccount) (n : ℕ) (ends : List Bool) → IsConfigured c self.old
            → AtRest c a n ends self.old → FailsTo c status a b → AtRest c (with_ending c b) n ends self.new }
        ensures settings { self.new.settings ≡ self.old.settings }
    {
        if self.settings.failure_allow {
            self.let_pass();
            self.settle_ending();
            return;
        }
        let given = self.given_whole();
        let committed = self.response.half.is_committed();
        self.reply(status, committed, given);
        self.settle_ending();
    }

    /// Another time for the oldest ask out: of the request, or else of the response. It counts once for each ask, and
    /// where it is in its range.
    pub(crate) fn extend(&mut self, span: Span)
        requires { HasConfig self.old }
        ensures ties { (c : FilterConfig) (a b : ExchangeAccount) (n : ℕ) (ends : List Bool) → IsConfigured c self.old
            → AtRest c a n ends self.old → ExtendsTo c span a b → AtRest c (with_ending c b) n ends self.new }
        ensures settings { self.new.settings ≡ self.old.settings }
    {
        let ms = valid_ms(self.settings.max_timeout_ms, span);
        if self.request.half.asks_out() > 0 {
            extend(&mut self.request, self.clock, ms);
            self.settle_ending();
            return;
        }
        if self.response.half.asks_out() > 0 {
            extend(&mut self.response, self.clock, ms);
            self.settle_ending();
            return;
        }
        self.settle_ending();
    }
}

fn extend(flow: &mut Flow, clock: u64, ms: Option<u64>)
    ensures { flow.new ≡ extended_in clock ms flow.old }
{
    if flow.extended {
        return;
    }
    if let Some(ms) = ms {
        flow.deadline = clock.checked_add(ms);
        flow.extended = true;
    }
}
