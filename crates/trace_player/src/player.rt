//! All exchanges of a trace.

ghost use Rattle.std.specs.Prelude.{◌≡◌, ◌++◌, ◌≤◌, ◌<◌, ℕ, List, IfOk, OnOk};
ghost use Rattle.ext_config.specs.Valid.{IsValid};
ghost use Rattle.trace_format.specs.declared.out.OutLine.{OutLine};
ghost use Rattle.trace_model.specs.Lines.{text_of_lines};
ghost use Rattle.trace_model.specs.Places.{TraceState, begun, ticked as ticked_by};
ghost use Rattle.trace_model.specs.Verdicts.{is_in_place as in_place, reached_at, reaches};
ghost use Rattle.trace_player.specs.Ties.{HasMet, HasMetAll, HasOpened, PlayerIs, SomePlayer};

use crate::event::is_about;
use crate::lines::push;
use crate::opened::Opened;
use ext_config::Config;
use pb_wire::Blob;
use std::alloc::{AllocError, Global};
use trace_format::{OutLine, TraceLine};

/// The exchanges of a trace, numbered from 1, and its clock.
#[derive(Drop)]
pub struct Player {
    alloc: Global,
    config: Config,
    exchanges: Vec<Opened>,
    /// The greatest tick so far, in milliseconds.
    clock: Option<u64>,
}

// The clock never goes back.
fn ticked(line: &TraceLine, clock: Option<u64>) -> Option<u64>
    ensures { result ≡ ticked_by line.now clock }
{
    let TraceLine::Tick(now) = line else {
        return clock;
    };
    match clock {
        Some(before) => Some(before.max(*now)),
        None => Some(*now),
    }
}

impl Player {
    /// A trace before its first event.
    pub fn new(alloc: Global, config: Config) -> Player
        requires { IsValid config }
        ensures { PlayerIs (begun config) result }
    {
        Player {
            alloc,
            config,
            exchanges: Vec::new(alloc),
            clock: None,
        }
    }

    // Whether the upstream of an exchange was reached, where it was opened.
    fn reached(&self, x: u32) -> Option<bool>
        ensures { (s : TraceState) → PlayerIs s self.now → result ≡ reached_at x (reaches s) }
    {
        if x == 0 {
            return None;
        }
        match self.exchanges.as_slice().get((x - 1) as usize) {
            Some(opened) => Some(opened.reached),
            None => None,
        }
    }

    /// Whether an event line may stand here.
    #[tactic(auto, unfolding(trace_model::specs::Verdicts::is_in_place))]
    pub fn is_in_place(&self, line: &TraceLine) -> bool
        ensures { (s : TraceState) → PlayerIs s self.now → result ≡ in_place (reaches s) line.now }
    {
        match line {
            TraceLine::First(_) | TraceLine::Config(_) | TraceLine::Ext(_) => false,
            TraceLine::ExtEnd | TraceLine::ExtLost => false,
            TraceLine::Open | TraceLine::Tick(_) | TraceLine::HoldExt | TraceLine::FreeExt => true,
            TraceLine::Stop => true,
            TraceLine::Client(x, _) => self.reached(*x).is_some(),
            TraceLine::Up(x, _) => self.reached(*x).is_some(),
            TraceLine::ClientEnd(x) => self.reached(*x).is_some(),
            TraceLine::UpEnd(x) => self.reached(*x).is_some(),
            TraceLine::ClientLost(x) => self.reached(*x).is_some(),
            TraceLine::UpLost(x) => self.reached(*x).is_some(),
            TraceLine::UpNoDial(x) => self.reached(*x) == Some(false),
            TraceLine::Answer(x, _) => self.reached(*x).is_some(),
            TraceLine::Close(x, _) => self.reached(*x).is_some(),
            TraceLine::HoldClient(x) => self.reached(*x).is_some(),
            TraceLine::HoldUp(x) => self.reached(*x).is_some(),
            TraceLine::FreeClient(x) => self.reached(*x).is_some(),
            TraceLine::FreeUp(x) => self.reached(*x).is_some(),
        }
    }

    // The next exchange, where there may be one more.
    fn open(&mut self, text: &mut Vec<u8>) -> Result<(), AllocError>
        requires { SomePlayer self.old }
        ensures { (s : TraceState) → PlayerIs s self.old
            → OnOk result (HasOpened s self.new text.old.items text.new.items) }
    {
        if self.exchanges.len() >= self.config.max_exchanges as usize {
            push(self.alloc, text, &OutLine::Full)?;
            return Ok(());
        }
        let x = self.exchanges.len() as u32 + 1;
        let opened = Opened::open(self.alloc, &self.config, self.clock, x, text)?;
        self.exchanges.push(opened)?;
        Ok(())
    }

    // Each exchange that the line is about meets it.
    fn meet_all(&mut self, line: &TraceLine, text: &mut Vec<u8>) -> Result<(), AllocError>
        requires { SomePlayer self.old }
        ensures { (s : TraceState) → PlayerIs s self.old
            → OnOk result (HasMetAll s line.now self.new text.old.items text.new.items) }
    {
        let mut x = 0u32;
        // Prover: the label names the loop in its proof.
        'exchanges: for opened in self.exchanges.iter_mut() {
            x += 1;
            if is_about(line, x) {
                opened.meet(self.alloc, self.config.answer_limit, x, line, text)?;
            }
        }
        self.clock = ticked(line, self.clock);
        Ok(())
    }

    /// An event line that isn't the last. The answer is the lines of the transcript that it brings.
    pub fn event(&mut self, line: &TraceLine) -> Result<Blob, AllocError>
        requires some { SomePlayer self.old }
        ensures { (s : TraceState) → PlayerIs s self.old
            → IfOk result (λ text. HasMet s line.now self.new text) }
    {
        let mut text = Vec::new(self.alloc);
        match line {
            TraceLine::Open => self.open(&mut text)?,
            line => self.meet_all(line, &mut text)?,
        }
        Ok(Blob::from_vec(text))
    }
}
