//! Reading a line of a trace.

ghost use Rattle.std.specs.Prelude.{◌≡◌, None, Some, option_copied, IfOk};
ghost use Rattle.trace_format.specs.Lines.{alone as only, held as held_line, freed as freed_line, line_by, line_of};

use crate::fault::LineFault;
use crate::forms::{
    Port, alone, answer, arrival, bytes_behind, close, config, exchange_behind, kind, port_named,
    time_behind,
};
use crate::line::TraceLine;
use crate::parts::parted;
use crate::word::{Word, word_of};
use std::alloc::{AllocError, Global};

fn held(port: Port) -> TraceLine
    ensures { result ≡ held_line port }
{
    match port {
        Port::Client(x) => TraceLine::HoldClient(x),
        Port::Up(x) => TraceLine::HoldUp(x),
        Port::Ext => TraceLine::HoldExt,
    }
}

fn freed(port: Port) -> TraceLine
    ensures { result ≡ freed_line port }
{
    match port {
        Port::Client(x) => TraceLine::FreeClient(x),
        Port::Up(x) => TraceLine::FreeUp(x),
        Port::Ext => TraceLine::FreeExt,
    }
}

// The line of a first word and what follows it.
#[tactic(auto, unfolding(crate::specs::Lines::line_by))]
fn line(alloc: Global, word: Word, rest: Option<&[u8]>) -> Result<Option<TraceLine>, AllocError>
    ensures { IfOk result (λ o. o ≡ line_by word (option_copied rest.entry)) }
{
    match word {
        Word::Trace => Ok(kind(rest)),
        Word::Config => config(alloc, rest),
        Word::Open => Ok(alone(TraceLine::Open, rest)),
        Word::Client => Ok(arrival(alloc, rest)?.map(|p| TraceLine::Client(p.0, p.1))),
        Word::Up => Ok(arrival(alloc, rest)?.map(|p| TraceLine::Up(p.0, p.1))),
        Word::ClientEnd => Ok(exchange_behind(rest).map(TraceLine::ClientEnd)),
        Word::UpEnd => Ok(exchange_behind(rest).map(TraceLine::UpEnd)),
        Word::ClientLost => Ok(exchange_behind(rest).map(TraceLine::ClientLost)),
        Word::UpLost => Ok(exchange_behind(rest).map(TraceLine::UpLost)),
        Word::UpNoDial => Ok(exchange_behind(rest).map(TraceLine::UpNoDial)),
        Word::Answer => Ok(answer(alloc, rest)?.map(|p| TraceLine::Answer(p.0, p.1))),
        Word::Close => Ok(close(rest).map(|p| TraceLine::Close(p.0, p.1))),
        Word::Ext => Ok(bytes_behind(alloc, rest)?.map(TraceLine::Ext)),
        Word::ExtEnd => Ok(alone(TraceLine::ExtEnd, rest)),
        Word::ExtLost => Ok(alone(TraceLine::ExtLost, rest)),
        Word::Tick => Ok(time_behind(rest).map(TraceLine::Tick)),
        Word::Hold => Ok(port_named(rest).map(held)),
        Word::Free => Ok(port_named(rest).map(freed)),
        Word::Stop => Ok(alone(TraceLine::Stop, rest)),
    }
}

/// Reads a line of a trace, without its line feed.
#[tactic(auto, unfolding(crate::specs::Lines::line_of))]
pub fn read_line(alloc: Global, text: &[u8]) -> Result<TraceLine, LineFault>
    ensures read { IfOk result (λ line. line_of text.now ≡ Some line) }
    ensures bad { result ≡ Err LineFault.Bad → line_of text.now ≡ None }
{
    let (first, rest) = parted(text);
    let Some(word) = word_of(first) else {
        return Err(LineFault::Bad);
    };
    match line(alloc, word, rest)? {
        Some(line) => Ok(line),
        None => Err(LineFault::Bad),
    }
}
