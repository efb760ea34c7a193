//! How a half makes the asks that are due and permitted.

ghost use Rattle.std.specs.Prelude.{◌≡◌, min};
ghost use Rattle.half_machine.specs.Choosing.{IsChosen};
ghost use Rattle.half_machine.specs.Asking.{queued, may_ask, with_due, one_asked_in, CanMake, Tied, passes};

use crate::due::{Due, is_passing, lent_by, made_with, mark_for, next_due};
use crate::half::Half;

/// With more body bytes than that waiting to be given, no ask is made; and as many may wait unasked.
pub(crate) const MARK: u32 = 65_536;

impl Half {
    /// Body bytes that no ask covers pass.
    pub(crate) fn passes(&self) -> bool
        ensures { result ≡ passes self.now }
    {
        is_passing(&self.rule, &self.asked, self.marks.has_body())
    }

    // The body bytes that wait to be given.
    fn queued(&self) -> u64
        ensures { result ≡ min (queued self.now) 18_446_744_073_709_551_615 }
    {
        if self.gone.framing.is_none() {
            return 0;
        }
        let ready = self
            .counts
            .waiting
            .saturating_add(u64::from(self.hold.out_len()));
        if self.passes() {
            return ready.saturating_add(u64::from(self.hold.at_hand()));
        }
        ready
    }

    fn may_ask(&self) -> bool
        ensures { result ≡ may_ask self.now }
    {
        self.marks.len() < 4 && self.asked.unsent < 4 && self.queued() <= u64::from(MARK)
    }

    fn make(&mut self, due: Due)
        requires { CanMake self.old due }
        ensures { self.new ≡ with_due due self.old }
    {
        if let Some(n) = lent_by(due) {
            self.hold.lend(n);
            self.counts.unasked -= n;
        }
        self.marks.push(mark_for(due));
        self.asked = made_with(&self.asked, due);
    }

    pub(crate) fn ask_one(&mut self)
        requires { Tied self.old × IsChosen self.old }
        ensures { self.new ≡ one_asked_in self.old }
    {
        if !self.may_ask() {
            return;
        }
        let due = next_due(
            &self.arrived,
            &self.rule,
            &self.asked,
            self.marks.has_headers(),
            self.limit,
            self.hold.at_hand(),
        );
        if let Some(due) = due {
            self.make(due);
        }
    }
}
