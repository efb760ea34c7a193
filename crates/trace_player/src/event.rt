//! What a line brings an exchange that it is about.

ghost use Rattle.std.specs.Prelude.{◌≡◌, ◌∷◌, ℕ, OnOk};
ghost use Rattle.filter_model.specs.Config.{FilterConfig};
ghost use Rattle.filter_model.specs.View as view;
ghost use Rattle.trace_model.specs.Links.{ExchangeState, answered_by, arrived, told_of};
ghost use Rattle.trace_model.specs.Places.{is_about as about};
ghost use Rattle.trace_player.specs.Ties.{HasLimit, IsPlain, IsTied, SameOvers, SomeTied, entry_of};

use crate::opened::Opened;
use filter_model::{Event, Loss, Side};
use pb_wire::{Blob, Duplicate};
use std::alloc::AllocError;
use trace_format::TraceLine;

/// Whether a line is about the exchange of this number.
pub(crate) fn is_about(line: &TraceLine, x: u32) -> bool
    ensures { result ≡ about line.now x }
{
    match line {
        TraceLine::Client(n, _) => *n == x,
        TraceLine::Up(n, _) => *n == x,
        TraceLine::ClientEnd(n) => *n == x,
        TraceLine::UpEnd(n) => *n == x,
        TraceLine::ClientLost(n) => *n == x,
        TraceLine::UpLost(n) => *n == x,
        TraceLine::UpNoDial(n) => *n == x,
        TraceLine::Answer(n, _) => *n == x,
        TraceLine::Close(n, _) => *n == x,
        TraceLine::Tick(_) => true,
        TraceLine::HoldClient(n) => *n == x,
        TraceLine::HoldUp(n) => *n == x,
        TraceLine::FreeClient(n) => *n == x,
        TraceLine::FreeUp(n) => *n == x,
        TraceLine::First(_) => false,
        TraceLine::Config(_) => false,
        TraceLine::Open => false,
        TraceLine::Ext(_) => false,
        TraceLine::ExtEnd => false,
        TraceLine::ExtLost => false,
        TraceLine::HoldExt => false,
        TraceLine::FreeExt => false,
        TraceLine::Stop => false,
    }
}

impl Opened {
    // It is told of an event that brings no bytes.
    fn told(&mut self, event: Event) -> Result<(), AllocError>
        requires some { SomeTied self.old }
        requires plain { IsPlain event }
        ensures tied { (c : FilterConfig) (m : ExchangeState) → IsTied c m self.old
            → OnOk result (IsTied c (told_of (entry_of event) m) self.new) }
        ensures overs { SameOvers self.old self.new }
    {
        self.exchange.step(event)?;
        Ok(())
    }

    // A message of the processor. One past the limit is too long, whatever it says.
    fn answered(&mut self, limit: u32, bytes: &Blob) -> Result<(), AllocError>
        requires { HasLimit self.old limit }
        ensures tied { (c : FilterConfig) (m : ExchangeState) → IsTied c m self.old → c.course.answer_limit ≡ limit
            → OnOk result (IsTied c (told_of (answered_by c bytes.now) m) self.new) }
        ensures overs { SameOvers self.old self.new }
    {
        if bytes.len() > limit as usize {
            self.told(Event::TooLong)?;
            return Ok(());
        }
        let copy = bytes.copy()?;
        self.exchange.step(Event::Answer(copy))?;
        Ok(())
    }

    /// What a line brings an exchange that it is about.
    #[tactic(auto, unfolding(trace_model::specs::Links::arrived))]
    pub fn arrive(&mut self, limit: u32, line: &TraceLine) -> Result<(), AllocError>
        requires { HasLimit self.old limit }
        ensures tied { (c : FilterConfig) (m : ExchangeState) → IsTied c m self.old → c.course.answer_limit ≡ limit
            → OnOk result (IsTied c (arrived c line.now m) self.new) }
        ensures overs { SameOvers self.old self.new }
    {
        match line {
            TraceLine::Client(_, bytes) => self.client.waiting.push(bytes.bytes())?,
            TraceLine::Up(_, bytes) => {
                self.up.waiting.push(bytes.bytes())?;
                self.reached = true;
            }
            TraceLine::ClientEnd(_) => self.client.ended = true,
            TraceLine::UpEnd(_) => self.up.ended = true,
            TraceLine::ClientLost(_) => self.told(Event::Lost(Side::Client, Loss::Broken))?,
            TraceLine::UpLost(_) => self.told(Event::Lost(Side::Upstream, Loss::Broken))?,
            TraceLine::UpNoDial(_) => self.told(Event::Lost(Side::Upstream, Loss::NoDial))?,
            TraceLine::Answer(_, bytes) => self.answered(limit, bytes)?,
            TraceLine::Close(_, clean) => self.told(Event::Closed(*clean))?,
            TraceLine::Tick(now) => self.told(Event::Tick(*now))?,
            TraceLine::HoldClient(_) => self.client.held = true,
            TraceLine::HoldUp(_) => self.up.held = true,
            TraceLine::FreeClient(_) => self.client.held = false,
            TraceLine::FreeUp(_) => self.up.held = false,
            TraceLine::First(_) | TraceLine::Config(_) | TraceLine::Open | TraceLine::Ext(_) => (),
            TraceLine::ExtEnd | TraceLine::ExtLost | TraceLine::HoldExt | TraceLine::FreeExt => (),
            TraceLine::Stop => (),
        }
        Ok(())
    }
}
