//! An exchange of a trace, and its links.

ghost use Rattle.std.specs.Prelude.{◌≡◌, ◌++◌, ◌||◌, [], List, None, IfOk, OnOk, false, is_some, not};
ghost use Rattle.std.specs.List.{All};
ghost use Rattle.http_model.specs.Bytes.{is_empty};
ghost use Rattle.ext_config.specs.Valid.{IsValid};
ghost use Rattle.filter_model.specs.Config.{FilterConfig};
ghost use Rattle.filter_model.specs.Right.{Call};
ghost use Rattle.filter_model.specs.declared.calls.Next.{Next};
ghost use Rattle.filter_model.specs.declared.calls.Side.TheVariants.{Client, Upstream};
ghost use Rattle.trace_model.specs.Lines.{end_of};
ghost use Rattle.trace_model.specs.Links.{ExchangeState, arrived, filter_of, opened_at};
ghost use Rattle.trace_model.specs.Rounds.{is_nothing};
ghost use Rattle.trace_player.specs.Ties.{HasGone, HasPlayed, HasPlayedOnce, HasTaken, IsStreamed, IsTied, RestTied};
ghost use Rattle.trace_player.specs.Ties.{SomeRest, SomeTied, YetToTell};
ghost use Rattle.trace_player.specs.Ties.{asks_in_order, last_end};

use crate::brought::Brought;
use crate::draining::{Streamed, drain, stream};
use crate::feeding::feed;
use crate::lines::write;
use crate::link::Link;
use exchange::Exchange;
use ext_config::Config;
use filter_model::{Event, Side, Taken};
use pb_wire::Blob;
use std::alloc::{AllocError, Global};
use trace_format::TraceLine;

/// An exchange and its links.
#[derive(Drop)]
pub struct Opened {
    pub exchange: Exchange,
    pub client: Link,
    pub up: Link,
    /// Bytes of the upstream arrived.
    pub reached: bool,
}

// True where a link is done, false where it is aborted.
fn end_of(last: &Taken) -> Option<bool>
    ensures { result ≡ end_of last.now }
{
    match last {
        Taken::Done => Some(true),
        Taken::Abort => Some(false),
        Taken::Piece(_) | Taken::Nothing | Taken::Gone => None,
    }
}

// Whether the processor's stream was given something.
fn gave_some(streamed: &Streamed) -> bool
    ensures { (nexts : List Next) → All (λ n. is_nothing n ≡ false) nexts
        → streamed.now.asks.items ≡ asks_in_order nexts
        → streamed.now.ending ≡ last_end None nexts → result ≡ not (is_empty nexts) }
{
    !streamed.asks.is_empty() || streamed.ending.is_some()
}

// Adds asks behind those that are there.
fn add_asks(asks: &mut Vec<Blob>, more: Vec<Blob>) -> Result<(), AllocError>
    ensures { OnOk result (asks.new.items ≡ asks.old.items ++ more.items) }
{
    // Prover: the label names the loop in its proof.
    'asks: for ask in more {
        asks.push(ask)?;
    }
    Ok(())
}

// Whether a step of a round did something.
fn any_of(client: bool, up: bool, to_client: bool, to_up: bool, streamed: bool) -> bool
    ensures { result ≡ (client || up || to_client || to_up || streamed) }
{
    client || up || to_client || to_up || streamed
}

// Whether the transcript has the end of a link once this end is written.
fn is_over(over: bool, end: Option<bool>) -> bool
    ensures { result ≡ (over || is_some end) }
{
    over || end.is_some()
}

impl Opened {
    /// An exchange that was told the time, where there was a tick.
    pub fn new(alloc: Global, config: &Config, clock: Option<u64>) -> Result<Opened, AllocError>
        requires { IsValid config.now }
        ensures { IfOk result (λ x. RestTied (filter_of config.now) (opened_at clock) x) }
    {
        let mut exchange = Exchange::new(alloc, config)?;
        if let Some(now) = clock {
            exchange.step(Event::Tick(now))?;
        }
        Ok(Opened {
            exchange,
            client: Link::new(alloc),
            up: Link::new(alloc),
            reached: false,
        })
    }

    // What the client is given. Whether it got a piece.
    fn drain_client(&mut self, brought: &mut Brought) -> Result<bool, AllocError>
        requires { SomeTied self.old }
        ensures { (c : FilterConfig) (m : ExchangeState) → IsTied c m self.old
            → IfOk result (λ some. HasTaken c Client m self.new brought.old brought.new some) }
    {
        if self.client.held {
            return Ok(false);
        }
        let drained = drain(&mut self.exchange, Side::Client, &mut brought.to_client)?;
        if brought.client_end.is_none() {
            brought.client_end = end_of(&drained.last);
        }
        Ok(drained.some)
    }

    // What the upstream is given. Whether it got a piece.
    fn drain_up(&mut self, brought: &mut Brought) -> Result<bool, AllocError>
        requires { SomeTied self.old }
        ensures { (c : FilterConfig) (m : ExchangeState) → IsTied c m self.old
            → IfOk result (λ some. HasTaken c Upstream m self.new brought.old brought.new some) }
    {
        if self.up.held {
            return Ok(false);
        }
        let drained = drain(&mut self.exchange, Side::Upstream, &mut brought.to_up)?;
        if brought.up_end.is_none() {
            brought.up_end = end_of(&drained.last);
        }
        Ok(drained.some)
    }

    // What the processor's stream is given. Whether it got something.
    fn stream(&mut self, alloc: Global, brought: &mut Brought) -> Result<bool, AllocError>
        requires { SomeTied self.old }
        ensures { (c : FilterConfig) (m : ExchangeState) → IsTied c m self.old
            → IfOk result (λ some. IsStreamed c m self.new brought.old brought.new some) }
    {
        let streamed = stream(alloc, &mut self.exchange)?;
        let some = gave_some(&streamed);
        add_asks(&mut brought.asks, streamed.asks)?;
        if brought.ending.is_none() {
            brought.ending = streamed.ending;
        }
        Ok(some)
    }

    // One round. Whether it did something.
    fn round(&mut self, alloc: Global, brought: &mut Brought) -> Result<bool, AllocError>
        requires { SomeTied self.old }
        ensures { (c : FilterConfig) (m : ExchangeState) → IsTied c m self.old
            → IfOk result (λ some. HasPlayedOnce c m self.new brought.old brought.new some) }
    {
        let client = feed(alloc, &mut self.exchange, Side::Client, &mut self.client)?;
        let up = feed(alloc, &mut self.exchange, Side::Upstream, &mut self.up)?;
        let to_client = self.drain_client(brought)?;
        let to_up = self.drain_up(brought)?;
        let streamed = self.stream(alloc, brought)?;
        Ok(any_of(client, up, to_client, to_up, streamed))
    }

    // Rounds until one does nothing.
    fn play(&mut self, alloc: Global) -> Result<Brought, AllocError>
        requires { SomeTied self.old }
        ensures { (c : FilterConfig) (m : ExchangeState) → IsTied c m self.old
            → IfOk result (λ brought. HasPlayed c m self.new brought) }
    {
        let mut brought = Brought::new(alloc);
        // Prover: the label names the loop in its proof, and its measure is a count.
        'rounds: for _ in 0..u64::MAX {
            let some = self.round(alloc, &mut brought)?;
            if !some {
                return Ok(brought);
            }
        }
        // More rounds than there are numbers for them.
        Err(AllocError)
    }

    // It is played to rest, and the lines of what that brings are appended.
    fn tell(&mut self, alloc: Global, x: u32, text: &mut Vec<u8>) -> Result<(), AllocError>
        requires { SomeTied self.old }
        ensures { (c : FilterConfig) (before : List Call) (m : ExchangeState) → YetToTell c before m self.old
            → OnOk result (HasGone c x before m self.new text.old.items text.new.items) }
    {
        // The ends that the transcript has already.
        let client_over = self.client.over;
        let up_over = self.up.over;
        let brought = self.play(alloc)?;
        let client_ended = is_over(client_over, brought.client_end);
        let up_ended = is_over(up_over, brought.up_end);
        write(alloc, x, brought, client_over, up_over, text)?;
        self.client.over = client_ended;
        self.up.over = up_ended;
        Ok(())
    }

    /// It meets a line that is about it, as exchange `x`, and the lines of what that brings are appended.
    pub fn meet(
        &mut self,
        alloc: Global,
        limit: u32,
        x: u32,
        line: &TraceLine,
        text: &mut Vec<u8>,
    ) -> Result<(), AllocError>
        requires { SomeRest self.old limit }
        ensures { (c : FilterConfig) (m : ExchangeState) → RestTied c m self.old → c.course.answer_limit ≡ limit
            → OnOk result (HasGone c x m.calls (arrived c line.now m) self.new text.old.items text.new.items) }
    {
        self.arrive(limit, line)?;
        self.tell(alloc, x, text)?;
        Ok(())
    }

    /// The next exchange, as exchange `x`, which is played to rest.
    pub fn open(
        alloc: Global,
        config: &Config,
        clock: Option<u64>,
        x: u32,
        text: &mut Vec<u8>,
    ) -> Result<Opened, AllocError>
        requires { IsValid config.now }
        ensures { IfOk result (λ o.
            HasGone (filter_of config.now) x [] (opened_at clock) o text.old.items text.new.items) }
    {
        let mut opened = Opened::new(alloc, config, clock)?;
        opened.tell(alloc, x, text)?;
        Ok(opened)
    }
}
