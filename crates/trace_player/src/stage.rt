//! Where a trace is, and what each line of it comes to.

ghost use Rattle.std.specs.Prelude.{IfOk};
ghost use Rattle.trace_format.specs.declared.line.TraceLine.TheVariants.{Stop};
ghost use Rattle.trace_model.specs.Places.{Events, First, Place, Second, TraceState};
ghost use Rattle.trace_player.specs.Ties.{ComesTo, MeetsAs, PlayerIs, SomePlace, SomePlayer, StageIs};

use crate::lines::push;
use crate::player::Player;
use ext_config::{ConfigFault, read_config};
use pb_wire::Blob;
use std::alloc::{AllocError, Global};
use trace_format::{LineFault, OutLine, TraceLine, read_line};

/// Which line of a trace comes next.
#[derive(Drop)]
pub enum Stage {
    /// The first line.
    First,
    /// The configuration.
    Second,
    /// An event.
    Events(Player),
    /// None: the trace was played.
    Ended,
}

/// What a line comes to.
#[derive(Drop)]
pub enum Met {
    /// It brings this text of the transcript, and leads on.
    Goes(Blob, Stage),
    /// It is no line of a trace, or may not stand there.
    Faulty,
    /// The configuration is refused.
    Refused(ConfigFault),
    /// It begins a trace of bytes, which isn't played yet.
    Unbuilt,
}

// The end of the transcript.
#[tactic(auto, unfolding(trace_model::specs::Verdicts::verdict, trace_model::specs::Verdicts::is_in_place))]
fn end(alloc: Global) -> Result<Met, AllocError>
    ensures { (s : TraceState) → IfOk result (λ m. ComesTo (Events s) Stop m) }
{
    let mut text = Vec::new(alloc);
    push(alloc, &mut text, &OutLine::End)?;
    Ok(Met::Goes(Blob::from_vec(text), Stage::Ended))
}

// An event line.
fn event(alloc: Global, player: Player, line: &TraceLine) -> Result<Met, AllocError>
    requires { SomePlayer player }
    ensures { (s : TraceState) → PlayerIs s player → IfOk result (λ m. ComesTo (Events s) line.now m) }
{
    if !player.is_in_place(line) {
        return Ok(Met::Faulty);
    }
    if let TraceLine::Stop = line {
        return end(alloc);
    }
    let mut player = player;
    let text = player.event(line)?;
    Ok(Met::Goes(text, Stage::Events(player)))
}

// The first line.
#[tactic(auto, unfolding(trace_model::specs::Verdicts::verdict))]
fn first(alloc: Global, line: &TraceLine) -> Met
    ensures { ComesTo First line.now result }
{
    match line {
        TraceLine::First(false) => Met::Goes(Blob::new(alloc), Stage::Second),
        TraceLine::First(true) => Met::Unbuilt,
        _ => Met::Faulty,
    }
}

// The second line.
#[tactic(auto, unfolding(trace_model::specs::Verdicts::verdict))]
fn second(alloc: Global, line: &TraceLine) -> Result<Met, AllocError>
    ensures { IfOk result (λ m. ComesTo Second line.now m) }
{
    let TraceLine::Config(text) = line else {
        return Ok(Met::Faulty);
    };
    match read_config(alloc, text.bytes()) {
        Ok(config) => Ok(Met::Goes(Blob::new(alloc), Stage::Events(Player::new(alloc, config)))),
        Err(ConfigFault::Memory) => Err(AllocError),
        Err(fault) => Ok(Met::Refused(fault)),
    }
}

// A line of the grammar.
fn known(alloc: Global, stage: Stage, line: &TraceLine) -> Result<Met, AllocError>
    requires { SomePlace stage }
    ensures { (p : Place) → StageIs p stage → IfOk result (λ m. ComesTo p line.now m) }
{
    match stage {
        Stage::First => Ok(first(alloc, line)),
        Stage::Second => second(alloc, line),
        Stage::Events(player) => event(alloc, player, line),
        Stage::Ended => Ok(Met::Faulty),
    }
}

/// What a line comes to, without its line feed.
pub fn step(alloc: Global, stage: Stage, text: &[u8]) -> Result<Met, AllocError>
    requires { SomePlace stage }
    ensures { (p : Place) → StageIs p stage → IfOk result (λ m. MeetsAs p text.now m) }
{
    match read_line(alloc, text) {
        Ok(line) => {
            let met = known(alloc, stage, &line)?;
            Ok(met)
        }
        Err(LineFault::Memory) => Err(AllocError),
        Err(LineFault::Bad) => Ok(Met::Faulty),
    }
}
