//! What the two sides are given.

ghost use Rattle.std.specs.Prelude.{◌≡◌, ◌∷◌, ◌≤◌, List, None, IfOk, OnErr, OnOk};
ghost use Rattle.filter_model.specs.Account.{Live};
ghost use Rattle.filter_model.specs.Config.{FilterConfig};
ghost use Rattle.filter_model.specs.Right.{Call, Took, Failed, IsWithin, MayTake, account};
ghost use Rattle.filter_model.specs.declared.calls.Side.TheVariants as side;
ghost use Rattle.exchange.specs.Giving.{done_if};
ghost use Rattle.exchange.specs.Stands.{IsReplied, IsAfter, IsAfterSome};

use crate::exchange::Exchange;
use crate::fate::Fate;
use crate::reply::local_bytes;
use filter_model::{Side, Taken};
use std::alloc::AllocError;

impl Exchange {
    /// What a side is given next: from 1 to `max` bytes, or nothing by now; that all was given, or that its link is to
    /// be aborted.
    pub fn take(&mut self, side: Side, max: u32) -> Result<Taken, AllocError>
        requires max { 1 ≤ max }
        requires stands { IsAfterSome self.old (λ c h. Unit {0}) }
        ensures may { (c : FilterConfig) (h : List Call) → IsAfter c h self.old
            → IfOk result (λ t. MayTake c (account c h) side t) }
        ensures within { IfOk result (λ t. IsWithin max t) }
        ensures stands { (c : FilterConfig) (h : List Call) → IsAfter c h self.old
            → IfOk result (λ t. IsAfter c (Took side t ∷ h) self.new) }
        ensures failed { (c : FilterConfig) (h : List Call) → IsAfter c h self.old
            → OnErr result (IsAfter c (Failed ∷ h) self.new) }
    {
        match self.fate {
            Fate::Live => match side {
                Side::Client => self.take_response(max),
                Side::Upstream => self.take_request(max),
            },
            Fate::Left => Ok(Taken::Done),
            Fate::Replied(given) => match side {
                Side::Client => self.take_reply(max),
                Side::Upstream => Ok(done_or_abort(given.request)),
            },
            Fate::Aborted(given) => match side {
                Side::Client => Ok(done_or_abort(given.response)),
                Side::Upstream => Ok(done_or_abort(given.request)),
            },
        }
    }

    // What the upstream is given next.
    fn take_request(&mut self, max: u32) -> Result<Taken, AllocError>
        requires max { 1 ≤ max }
        requires stands { IsAfterSome self.old (λ c h. (account c h).fate ≡ Live) }
        ensures may { (c : FilterConfig) (h : List Call) → IsAfter c h self.old → (account c h).fate ≡ Live
            → IfOk result (λ t. MayTake c (account c h) side.Upstream t) }
        ensures within { IfOk result (λ t. IsWithin max t) }
        ensures stands { (c : FilterConfig) (h : List Call) → IsAfter c h self.old → (account c h).fate ≡ Live
            → IfOk result (λ t. IsAfter c (Took side.Upstream t ∷ h) self.new) }
        ensures failed { (c : FilterConfig) (h : List Call) → IsAfter c h self.old → (account c h).fate ≡ Live
            → OnErr result (IsAfter c (Failed ∷ h) self.new) }
    {
        if self.request.is_given() {
            return Ok(Taken::Done);
        }
        let before = self.request.half.unhanded();
        let idle = self.request.half.asks_out() == 0;
        let Some(bytes) = self.request.take(max)? else {
            return Ok(Taken::Nothing);
        };
        let made = self.request.half.unhanded() - before;
        self.request_asked(made, idle);
        self.settle_ending();
        Ok(Taken::Piece(bytes))
    }

    // What the client is given next.
    fn take_response(&mut self, max: u32) -> Result<Taken, AllocError>
        requires max { 1 ≤ max }
        requires stands { IsAfterSome self.old (λ c h. (account c h).fate ≡ Live) }
        ensures may { (c : FilterConfig) (h : List Call) → IsAfter c h self.old → (account c h).fate ≡ Live
            → IfOk result (λ t. MayTake c (account c h) side.Client t) }
        ensures within { IfOk result (λ t. IsWithin max t) }
        ensures stands { (c : FilterConfig) (h : List Call) → IsAfter c h self.old → (account c h).fate ≡ Live
            → IfOk result (λ t. IsAfter c (Took side.Client t ∷ h) self.new) }
        ensures failed { (c : FilterConfig) (h : List Call) → IsAfter c h self.old → (account c h).fate ≡ Live
            → OnErr result (IsAfter c (Failed ∷ h) self.new) }
    {
        if self.response.is_given() {
            return Ok(Taken::Done);
        }
        let before = self.response.half.unhanded();
        let idle = self.response.half.asks_out() == 0;
        let Some(bytes) = self.response.take(max)? else {
            return Ok(Taken::Nothing);
        };
        let made = self.response.half.unhanded() - before;
        self.response_asked(made, idle);
        self.settle_ending();
        Ok(Taken::Piece(bytes))
    }

    // The next of a reply, which goes behind an interim response that is owed.
    fn take_reply(&mut self, max: u32) -> Result<Taken, AllocError>
        requires max { 1 ≤ max }
        requires stands { IsAfterSome self.old (λ c h. IsReplied (account c h).fate) }
        ensures may { (c : FilterConfig) (h : List Call) → IsAfter c h self.old → IsReplied (account c h).fate
            → IfOk result (λ t. MayTake c (account c h) side.Client t) }
        ensures within { IfOk result (λ t. IsWithin max t) }
        ensures stands { (c : FilterConfig) (h : List Call) → IsAfter c h self.old → IsReplied (account c h).fate
            → IfOk result (λ t. IsAfter c (Took side.Client t ∷ h) self.new) }
        ensures failed { (c : FilterConfig) (h : List Call) → IsAfter c h self.old → IsReplied (account c h).fate
            → OnErr result (IsAfter c (Failed ∷ h) self.new) }
    {
        self.write_reply()?;
        match self.response.outlet.take(max)? {
            Some(gave) => Ok(Taken::Piece(gave.bytes)),
            None => Ok(Taken::Done),
        }
    }

    // A reply of a status is written once its bytes are asked for.
    fn write_reply(&mut self) -> Result<(), AllocError>
        ensures stands { (c : FilterConfig) (h : List Call) → IsAfter c h self.old
            → OnOk result (IsAfter c h self.new) }
        ensures written { OnOk result (self.new.waiting ≡ None) }
        ensures kept { OnErr result (self.new ≡ self.old) }
    {
        if let Some(status) = self.waiting {
            let bytes = local_bytes(self.alloc, status)?;
            self.response.outlet.reply(bytes);
            self.waiting = None;
        }
        Ok(())
    }
}

fn done_or_abort(given: bool) -> Taken
    ensures { result ≡ done_if given }
{
    if given { Taken::Done } else { Taken::Abort }
}
