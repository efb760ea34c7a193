//! How an exchange ends, and what lets the rest of it pass.

ghost use Rattle.std.specs.Prelude.{◌≡◌, ◌&&◌, List, Bool, ℕ, not, true};
ghost use Rattle.http_model.specs.declared.types.Direction.TheVariants.{Response};
ghost use Rattle.filter_model.specs.Account.{ExchangeAccount, front, is_finished, is_released};
ghost use Rattle.filter_model.specs.Config.{FilterConfig};
ghost use Rattle.filter_model.specs.Step.{ending_by, ending_of, is_cut_off, is_live, with_ending};
ghost use Rattle.exchange.specs.Stands.{AtRest, IsGivenBy, ExchangeTies};
ghost use Rattle.exchange.specs.Moves.{is_live_in, replied_in};
ghost use Rattle.exchange.specs.Passing.{Passable, PassesTo};

use crate::exchange::Exchange;
use crate::fate::{Fate, GivenWhole};

impl Exchange {
    pub(crate) fn is_live(&self) -> bool
        ensures { result ≡ is_live_in self.now.fate }
    {
        match self.fate {
            Fate::Live => true,
            Fate::Left | Fate::Replied(_) | Fate::Aborted(_) => false,
        }
    }

    /// Which messages were given whole by now, of an exchange that lives.
    pub(crate) fn given_whole(&self) -> GivenWhole
        ensures { (c : FilterConfig) (q r a : ExchangeAccount) (n : ℕ) (ends : List Bool)
            → ExchangeTies c q r a n ends self.now → is_live a.fate ≡ true → front Response r ≡ front Response a
            → IsGivenBy c a result }
    {
        GivenWhole {
            request: self.request.is_given(),
            response: self.response.is_given(),
        }
    }

    /// Both messages were given: nothing is a cut any more.
    pub(crate) fn is_finished(&self) -> bool
        ensures { (c : FilterConfig) (q r a : ExchangeAccount) (n : ℕ) (ends : List Bool)
            → ExchangeTies c q r a n ends self.now → is_live a.fate ≡ true → front Response r ≡ front Response a
            → result ≡ is_finished c a }
    {
        let given = self.given_whole();
        given.request && given.response
    }

    /// Whether the processor is still heard: both messages weren't given, and the rest doesn't pass.
    pub(crate) fn is_heard(&self) -> bool
        ensures { (c : FilterConfig) (q r a : ExchangeAccount) (n : ℕ) (ends : List Bool)
            → ExchangeTies c q r a n ends self.now → is_live a.fate ≡ true → front Response r ≡ front Response a
            → result ≡ (not (is_finished c a) && not (is_released a)) }
    {
        !self.is_finished() && !self.request.half.is_released()
    }

    /// The exchange ends with a reply of this status, or, where the response's head can go, with an abort.
    pub(crate) fn reply(&mut self, status: u32, committed: bool, given: GivenWhole)
        ensures { self.new ≡ replied_in status committed given self.old }
    {
        if committed {
            self.fate = Fate::Aborted(given);
        } else {
            self.fate = Fate::Replied(given);
            self.waiting = Some(status);
        }
    }

    /// What wasn't answered passes as it is, and nothing more is asked.
    pub(crate) fn let_pass(&mut self)
        requires { Passable self.old }
        ensures passes { (c : FilterConfig) (a b : ExchangeAccount) (n : ℕ) (ends : List Bool)
            → AtRest c a n ends self.old → PassesTo c a b → AtRest c b n ends self.new }
        ensures settings { self.new.settings ≡ self.old.settings }
    {
        self.request.half.release();
        self.response.half.release();
    }

    /// How the stream is to be ended is settled once, behind every entry.
    pub(crate) fn settle_ending(&mut self)
        ensures ends { (c : FilterConfig) (a : ExchangeAccount) (n : ℕ) (ends : List Bool) → AtRest c a n ends self.old
            → AtRest c (with_ending c a) n ends self.new }
        ensures settings { self.new.settings ≡ self.old.settings }
    {
        let ending = self.ending_now();
        self.stream.ending = ending;
    }

    // As it was settled, and else as it is due by now.
    fn ending_now(&self) -> Option<bool>
        ensures { (c : FilterConfig) (a : ExchangeAccount) (n : ℕ) (ends : List Bool) → AtRest c a n ends self.now
            → result ≡ ending_of c a }
    {
        if self.stream.ending.is_some() || !self.stream.asked || self.stream.unopened {
            return self.stream.ending;
        }
        let ending = self.ending_due();
        ending
    }

    fn ending_due(&self) -> Option<bool>
        ensures { (c : FilterConfig) (a : ExchangeAccount) (n : ℕ) (ends : List Bool) → AtRest c a n ends self.now
            → result ≡ ending_by a.closed (is_cut_off a) (is_finished c a) }
    {
        if let Some(clean) = self.stream.closed {
            return if clean { Some(true) } else { None };
        }
        if self.is_cut_off() {
            return Some(false);
        }
        if self.is_finished() {
            return Some(true);
        }
        None
    }

    // The rest passes, or the exchange has ended.
    fn is_cut_off(&self) -> bool
        ensures { (c : FilterConfig) (a : ExchangeAccount) (n : ℕ) (ends : List Bool) → AtRest c a n ends self.now
            → result ≡ is_cut_off a }
    {
        self.request.half.is_released() || !self.is_live()
    }
}
