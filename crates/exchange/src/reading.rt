//! What the two sides bring.

ghost use Rattle.std.specs.Prelude.{◌≡◌, ◌∷◌, ◌&&◌, ◌||◌, List, Some, Option, true, is_some, option_map, length, min, take, IfOk, OnErr};
ghost use Rattle.http_model.specs.Reading.{Fault, status_of as status};
ghost use Rattle.h1_message.specs.Source.{named as named_in};
ghost use Rattle.http_model.specs.Bytes.{is_named as named};
ghost use Rattle.filter_model.specs.Account.{gathered, is_head_request, settled};
ghost use Rattle.filter_model.specs.Config.{FilterConfig};
ghost use Rattle.filter_model.specs.Cut.{Peer, loss_cut};
ghost use Rattle.filter_model.specs.Right.{Call, Stepped, Failed, account};
ghost use Rattle.filter_model.specs.Step.{is_live, room};
ghost use Rattle.filter_model.specs.View as view;
ghost use Rattle.filter_model.specs.View.{ViewEntry};
ghost use Rattle.filter_model.specs.declared.calls.Side.TheVariants as side;
ghost use Rattle.exchange.specs.Reading.{IsBefore, IsTaking, owed_flow, status_in};
ghost use Rattle.h1_outlet.specs.Outlets.{Flowed};
ghost use Rattle.h1_outlet.specs.Stands.{MayOwe, StandsFor as Outgoing};
ghost use Rattle.exchange.specs.Stands.{IsAfter, IsAfterSome};

use crate::exchange::Exchange;
use crate::fate::{Fate, GivenWhole};
use crate::reply::status_of;
use ext_msgs::{Field, FieldList};
use filter_model::{Loss, Side};
use h1_message::News;
use h1_outlet::Outlet;
use h1_read::H1Fault;
use std::alloc::AllocError;

fn is_named(field: &Field, name: &[u8]) -> bool
    ensures { result ≡ named name.now field.now }
{
    field.name.bytes() == name
}

// The method is HEAD.
#[tactic(auto, using(crate::proofs::ReadingHead::method_at, crate::proofs::ReadingHead::method_behind))]
fn is_head(head: &FieldList) -> bool
    ensures { result ≡ is_head_request (Some head.now) }
{
    for field in head.as_slice() {
        if is_named(field, b":method") {
            return field.value.bytes() == b"HEAD".as_slice();
        }
    }
    false
}

fn owe_interim(outlet: &mut Outlet, expects: bool)
    ensures { (f : Flowed) → Outgoing f outlet.old → MayOwe f → Outgoing (owed_flow expects f) outlet.new }
{
    if expects {
        outlet.owe_interim();
    }
}

// The status of the reply to a request with this fault.
fn request_fault(fault: Option<H1Fault>) -> Option<u32>
    ensures { (o : Option Fault) → named_in fault ≡ o → is_some fault ≡ is_some o
        → result ≡ option_map status o }
{
    match fault {
        Some(fault) => Some(status_of(fault)),
        None => None,
    }
}

// Every fault of the upstream is a bad gateway: RFC 9110 section 15.6.3.
fn response_fault(fault: Option<H1Fault>) -> Option<u32>
    ensures { (o : Option Fault) → is_some fault ≡ is_some o → result ≡ option_map (λ f. 502) o }
{
    match fault {
        Some(_) => Some(502),
        None => None,
    }
}

// The status of the reply where the entry is a cut: of a body past its limit, or else of a fault.
fn cut_status(finished: bool, over: bool, limit: u32, fault: Option<u32>) -> Option<u32>
    ensures { result ≡ status_in finished over limit fault }
{
    if finished {
        return None;
    }
    if over {
        return Some(limit);
    }
    fault
}

// A loss is no fault once both messages were given, or where the side's own message is whole and it was given the
// other one.
fn is_harmless(finished: bool, whole: bool, given: bool) -> bool
    ensures { result ≡ (finished || (whole && given)) }
{
    finished || (whole && given)
}

// The status of the reply where the upstream is lost.
fn loss_status(how: Loss) -> u32
    ensures { loss_cut side.Upstream how ≡ Peer result }
{
    match how {
        Loss::NoDial => 503,
        Loss::Broken => 502,
    }
}

impl Exchange {
    /// As many bytes of a side as there is room for. The answer is how many were taken.
    pub(crate) fn bytes(&mut self, side: Side, bytes: &[u8]) -> Result<u32, AllocError>
        requires { IsAfterSome self.old (λ c h. Unit {0}) }
        ensures taken { (c : FilterConfig) (h : List Call) → IsAfter c h self.old
            → IfOk result (λ n. n ≡ min (length bytes.now) (room c (account c h) side)) }
        ensures stands { (c : FilterConfig) (h : List Call) → IsAfter c h self.old
            → IfOk result (λ n. IsAfter c (Stepped (view.Bytes side (take n bytes.now)) ∷ h) self.new) }
        ensures failed { (c : FilterConfig) (h : List Call) → IsAfter c h self.old
            → OnErr result (IsAfter c (Failed ∷ h) self.new) }
    {
        let n = bytes.len().min(self.room(side) as usize);
        if !self.is_live() {
            return Ok(0);
        }
        let (taken, _) = bytes.split_at(n);
        match side {
            Side::Client => {
                let news = self.request.reader.feed(taken)?;
                self.client_brought(news);
                Ok(n as u32)
            }
            Side::Upstream => {
                let news = self.response.reader.feed(taken)?;
                self.upstream_brought(news);
                Ok(n as u32)
            }
        }
    }

    /// A side ended its stream. A client that does so before its first byte has left.
    pub(crate) fn end(&mut self, side: Side)
        requires { IsAfterSome self.old (λ c h. Unit {0}) }
        ensures { (c : FilterConfig) (h : List Call) → IsAfter c h self.old
            → IsAfter c (Stepped (view.End side) ∷ h) self.new }
    {
        if !self.is_live() {
            return;
        }
        match side {
            Side::Client => {
                let left = !self.request.reader.is_begun();
                let news = self.request.reader.end();
                if left {
                    self.fate = Fate::Left;
                    self.settle_ending();
                    return;
                }
                self.client_brought(news);
            }
            Side::Upstream => {
                let news = self.response.reader.end();
                self.upstream_brought(news);
            }
        }
    }

    // What the client has brought, which the half of the request wasn't told yet.
    fn client_brought(&mut self, news: News)
        requires { (c : FilterConfig) × (h : List Call) × (e : ViewEntry)
            × IsTaking c h side.Client e news (account c h) self.old }
        ensures { (c : FilterConfig) (h : List Call) (e : ViewEntry) →
            IsTaking c h side.Client e news (account c h) self.old → IsAfter c (Stepped e ∷ h) self.new }
    {
        let finished = self.is_finished();
        let given = self.given_whole();
        let committed = self.response.half.is_committed();
        self.owe(&news);
        self.request_heard(news, finished, committed, given);
    }

    // Before the response goes an interim response, where the client waits for one; and the response's reader learns
    // that it answers a HEAD request.
    fn owe(&mut self, news: &News)
        ensures { (c : FilterConfig) (h : List Call) (e : ViewEntry) →
            IsTaking c h side.Client e news.now (account c h) self.old
            → IsTaking c h side.Client e news.now (gathered e (account c h)) self.new }
    {
        if let Some(message) = &news.head {
            owe_interim(&mut self.response.outlet, message.expects);
            self.to_head = is_head(&message.head);
            self.response.reader.to_head(self.to_head);
        }
    }

    fn request_heard(&mut self, news: News, finished: bool, committed: bool, given: GivenWhole)
        requires { (c : FilterConfig) × (h : List Call) × (e : ViewEntry)
            × IsTaking c h side.Client e news (gathered e (account c h)) self.old
            × IsBefore c h e finished committed given }
        ensures { (c : FilterConfig) (h : List Call) (e : ViewEntry) →
            IsTaking c h side.Client e news (gathered e (account c h)) self.old
            → IsBefore c h e finished committed given → IsAfter c (Stepped e ∷ h) self.new }
    {
        let fault = request_fault(news.fault);
        let before = self.request.half.unhanded();
        let idle = self.request.half.asks_out() == 0;
        self.request.tell(news);
        let over = self.request.half.over_limit();
        if let Some(status) = cut_status(finished, over, 413, fault) {
            self.reply(status, committed, given);
            self.settle_ending();
            return;
        }
        let made = self.request.half.unhanded() - before;
        self.request_asked(made, idle);
        self.settle_ending();
    }

    // What the upstream has brought, which the half of the response wasn't told yet.
    fn upstream_brought(&mut self, news: News)
        requires { (c : FilterConfig) × (h : List Call) × (e : ViewEntry)
            × IsTaking c h side.Upstream e news (gathered e (account c h)) self.old }
        ensures { (c : FilterConfig) (h : List Call) (e : ViewEntry) →
            IsTaking c h side.Upstream e news (gathered e (account c h)) self.old
            → IsAfter c (Stepped e ∷ h) self.new }
    {
        let finished = self.is_finished();
        let given = self.given_whole();
        let committed = self.would_be_committed(&news);
        self.response_heard(news, finished, committed, given);
    }

    // The response's head goes, or can go at once where this news brings it.
    fn would_be_committed(&self, news: &News) -> bool
        ensures { (c : FilterConfig) (h : List Call) (e : ViewEntry) →
            IsTaking c h side.Upstream e news.now (gathered e (account c h)) self.now
            → result ≡ is_some (settled c (gathered e (account c h))).response.course.head }
    {
        if self.response.half.is_committed() {
            return true;
        }
        let goes = self.response.would_go(news);
        goes
    }

    fn response_heard(&mut self, news: News, finished: bool, committed: bool, given: GivenWhole)
        requires { (c : FilterConfig) × (h : List Call) × (e : ViewEntry)
            × IsTaking c h side.Upstream e news (gathered e (account c h)) self.old
            × IsBefore c h e finished committed given }
        ensures { (c : FilterConfig) (h : List Call) (e : ViewEntry) →
            IsTaking c h side.Upstream e news (gathered e (account c h)) self.old
            → IsBefore c h e finished committed given → IsAfter c (Stepped e ∷ h) self.new }
    {
        let fault = response_fault(news.fault);
        let before = self.response.half.unhanded();
        let idle = self.response.half.asks_out() == 0;
        self.response.tell(news);
        let over = self.response.half.over_limit();
        if let Some(status) = cut_status(finished, over, 500, fault) {
            self.reply(status, committed, given);
            self.settle_ending();
            return;
        }
        let made = self.response.half.unhanded() - before;
        self.response_asked(made, idle);
        self.settle_ending();
    }

    /// The link of a side is lost. That of one whose message is whole, and which was given all, is no fault.
    pub(crate) fn lose(&mut self, side: Side, how: Loss)
        ensures { (c : FilterConfig) (h : List Call) → IsAfter c h self.old
            → IsAfter c (Stepped (view.Lost side how) ∷ h) self.new }
    {
        if !self.is_live() {
            return;
        }
        match side {
            Side::Client => self.client_lost(),
            Side::Upstream => self.upstream_lost(how),
        }
    }

    // There is nobody to reply to.
    fn client_lost(&mut self)
        ensures { (c : FilterConfig) (h : List Call) (how : Loss) → IsAfter c h self.old
            → is_live (account c h).fate ≡ true → IsAfter c (Stepped (view.Lost side.Client how) ∷ h) self.new }
    {
        let finished = self.is_finished();
        let given = self.given_whole();
        let whole = self.request.half.is_whole();
        self.request.lost = true;
        if is_harmless(finished, whole, given.response) {
            self.settle_ending();
            return;
        }
        self.fate = Fate::Aborted(given);
        self.settle_ending();
    }

    fn upstream_lost(&mut self, how: Loss)
        ensures { (c : FilterConfig) (h : List Call) → IsAfter c h self.old
            → is_live (account c h).fate ≡ true → IsAfter c (Stepped (view.Lost side.Upstream how) ∷ h) self.new }
    {
        let finished = self.is_finished();
        let given = self.given_whole();
        let whole = self.response.half.is_whole();
        let committed = self.response.half.is_committed();
        self.response.lost = true;
        if is_harmless(finished, whole, given.request) {
            self.settle_ending();
            return;
        }
        self.reply(loss_status(how), committed, given);
        self.settle_ending();
    }
}
