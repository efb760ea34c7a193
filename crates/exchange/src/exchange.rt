//! An exchange: what it is made of, and what it tells of itself.

ghost use Rattle.std.specs.Prelude.{◌≡◌, ◌∷◌, List, [], IfOk, OnErr, IsOk, not};
ghost use Rattle.http_model.specs.Bytes.{is_empty};
ghost use Rattle.filter_model.specs.Config.{FilterConfig};
ghost use Rattle.filter_model.specs.Right.{Call, Stepped, Failed, MayCome, TakesNoMemory, account, entry, taken_of};
ghost use Rattle.filter_model.specs.Step.{room, is_over_for};
ghost use Rattle.ext_config.specs.Valid.{IsValid};
ghost use Rattle.exchange.specs.Settings.{FitsConfig, settings_of, request_setup, response_setup};
ghost use Rattle.exchange.specs.Heard.{heard};
ghost use Rattle.exchange.specs.Stands.{IsAfter, IsAfterSome};

use crate::fate::{Fate, Stream};
use crate::flow::Flow;
use crate::order::Order;
use crate::settings::Settings;
use ext_config::Config;
use ext_msgs::Ask;
use filter_model::{Event, Side};
use h1_message::MessageReader;
use h1_outlet::Outlet;
use header_mutation::HalfSetup;
use http_model::Direction;
use pb_wire::Duplicate;
use std::alloc::{AllocError, Global};

/// One exchange. It keeps of its history only what the next answers need: the bytes of both messages that weren't
/// given, what its halves keep, the order of the asks that weren't sent, and a few counts.
#[derive(Drop)]
pub struct Exchange {
    pub(crate) alloc: Global,
    pub(crate) settings: Settings,
    pub(crate) request: Flow,
    pub(crate) response: Flow,
    // Of the asks that were made and not sent,
    pub(crate) order: Order,
    // the first so many were given by `next`.
    pub(crate) unsent: u32,
    // An ask that its half handed out, and that wasn't given.
    pub(crate) ready: Option<Ask>,
    // The request is a HEAD.
    pub(crate) to_head: bool,
    // The greatest tick, in milliseconds.
    pub(crate) clock: u64,
    pub(crate) fate: Fate,
    // The status of a reply that isn't written yet.
    pub(crate) waiting: Option<u32>,
    pub(crate) stream: Stream,
}

fn settings(config: &Config) -> Settings
    ensures { result ≡ settings_of config.now }
{
    Settings {
        failure_allow: config.failure_allow,
        timeout_ms: config.timeout_ms,
        max_timeout_ms: config.max_timeout_ms,
        allow_override: config.allow_override,
        no_immediate: config.no_immediate,
    }
}

fn request_setup(config: &Config) -> Result<HalfSetup, AllocError>
    ensures { IfOk result (λ setup. setup ≡ request_setup config.now) }
{
    let rules = config.rules.copy()?;
    Ok(HalfSetup {
        response: false,
        modes: config.request,
        rules,
        buffer_limit: config.buffer_limit,
        answer_limit: config.answer_limit,
    })
}

fn response_setup(config: &Config) -> Result<HalfSetup, AllocError>
    ensures { IfOk result (λ setup. setup ≡ response_setup config.now) }
{
    let rules = config.rules.copy()?;
    Ok(HalfSetup {
        response: true,
        modes: config.response,
        rules,
        buffer_limit: config.buffer_limit,
        answer_limit: config.answer_limit,
    })
}

impl Exchange {
    /// An exchange that was told nothing. It reserves what all calls need that take no memory.
    pub fn new(alloc: Global, config: &Config) -> Result<Exchange, AllocError>
        requires { IsValid config.now }
        ensures { (c : FilterConfig) → FitsConfig c config.now → IfOk result (λ x. IsAfter c [] x) }
    {
        let request = Flow::new(
            alloc,
            MessageReader::request(alloc),
            Outlet::new(alloc, Direction::Request),
            request_setup(config)?,
        )?;
        let response = Flow::new(
            alloc,
            MessageReader::response(alloc),
            Outlet::new(alloc, Direction::Response),
            response_setup(config)?,
        )?;
        let order = Order::new(alloc)?;
        Ok(Exchange {
            alloc,
            settings: settings(config),
            request,
            response,
            order,
            unsent: 0,
            ready: None,
            to_head: false,
            clock: 0,
            fate: Fate::Live,
            waiting: None,
            stream: Stream {
                asked: false,
                unopened: false,
                closed: None,
                ending: None,
                ended: false,
            },
        })
    }

    /// What the exchange meets. The answer is how many bytes were taken: those of `Bytes`, as far as there is room, and
    /// else 0. It takes no memory but for bytes and answers.
    pub fn step(&mut self, event: Event) -> Result<u32, AllocError>
        requires { IsAfterSome self.old (λ c h. MayCome c h event) }
        ensures taken { (c : FilterConfig) (h : List Call) → IsAfter c h self.old → MayCome c h event
            → IfOk result (λ n. n ≡ taken_of c (account c h) event) }
        ensures stands { (c : FilterConfig) (h : List Call) → IsAfter c h self.old → MayCome c h event
            → IfOk result (λ n. IsAfter c (Stepped (entry (heard event) event n) ∷ h) self.new) }
        ensures failed { (c : FilterConfig) (h : List Call) → IsAfter c h self.old → MayCome c h event
            → OnErr result (IsAfter c (Failed ∷ h) self.new) }
        ensures ok { TakesNoMemory event → IsOk result }
    {
        match event {
            Event::Bytes(side, bytes) => {
                let n = self.bytes(side, bytes.bytes())?;
                return Ok(n);
            }
            Event::Answer(bytes) => self.answer(bytes.bytes())?,
            Event::End(side) => self.end(side),
            Event::Lost(side, how) => self.lose(side, how),
            Event::TooLong => self.too_long(),
            Event::Closed(clean) => self.closed(clean),
            Event::NoStream => self.no_stream(),
            Event::Tick(now) => self.tick(now),
            Event::Starved => self.starved(),
            Event::Sent => self.sent(),
        }
        Ok(0)
    }

    /// How many bytes a side may bring.
    pub fn room(&self, side: Side) -> u32
        ensures { (c : FilterConfig) (h : List Call) → IsAfter c h self.now → result ≡ room c (account c h) side }
    {
        if !self.is_live() {
            return 0;
        }
        match side {
            Side::Client => self.request.room(),
            Side::Upstream if self.request.half.is_committed() => self.response.room(),
            Side::Upstream => 0,
        }
    }

    /// Whether a side brings nothing any more.
    pub fn over(&self, side: Side) -> bool
        ensures { (c : FilterConfig) (h : List Call) → IsAfter c h self.now → result ≡ is_over_for (account c h) side }
    {
        match side {
            Side::Client => !self.is_live() || self.request.is_over(),
            Side::Upstream => !self.is_live() || self.response.is_over(),
        }
    }

    /// Whether an ask was made: the stream is to be opened then.
    pub fn asked(&self) -> bool
        ensures { (c : FilterConfig) (h : List Call) → IsAfter c h self.now
            → result ≡ not (is_empty (account c h).made) }
    {
        self.stream.asked
    }

    /// How the stream ends, where its end is due or was given: true where it is finished, false where it is reset.
    pub fn ending(&self) -> Option<bool>
        ensures { (c : FilterConfig) (h : List Call) → IsAfter c h self.now → result ≡ (account c h).ending }
    {
        self.stream.ending
    }
}
