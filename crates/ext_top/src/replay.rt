//! A trace is played, line after line.

ghost use Rattle.std.specs.Prelude.{◌≡◌, ◌≢◌, ◌≤◌};
ghost use Rattle.px_edge.specs.Causes.{Rose};
ghost use Rattle.ext_top.specs.Moves.{room};
ghost use Rattle.trace_model.specs.Places.{Place};
ghost use Rattle.trace_player.specs.Ties.{StageIs};
ghost use Rattle.ext_top.specs.Plays.{EndsReplay, is_end};

use crate::status::Status;
use crate::streams::{LINE_LIMIT, Stop, read_line, write_all};
use px_edge::{Sink, Source};
use std::alloc::Global;
use trace_player::{Met, Stage, step};

/// The greatest length of a trace in bytes.
const TRACE_LIMIT: usize = 1 << 30;

// How many bytes the next line may have, with its line feed.
fn room(before: usize) -> usize
    ensures { result ≡ room before }
{
    let left = TRACE_LIMIT.saturating_sub(before);
    if left < LINE_LIMIT { left } else { LINE_LIMIT }
}

// Whether no line comes any more.
fn at_end(stage: &Stage) -> bool
    ensures { (p : Place) → StageIs p stage.now → result ≡ is_end p }
{
    matches!(stage, Stage::Ended)
}

/// Plays a trace from a source, and writes its transcript to a sink.
pub(crate) fn replay<S: Source, K: Sink>(alloc: Global, source: &mut S, sink: &mut K) -> Status
    ensures outcome { EndsReplay result (S.left source.old) (S.left source.new) (K.written sink.old)
        (K.written sink.new) }
    ensures usage { result ≢ Status.Usage }
    ensures read { result ≡ Status.ReadFault → Rose (S.faults source.old) (S.faults source.new) }
    ensures write { result ≡ Status.WriteFault → Rose (K.faults sink.old) (K.faults sink.new) }
    ensures later_source { S.faults source.old ≤ S.faults source.new }
    ensures later_sink { K.faults sink.old ≤ K.faults sink.new }
{
    let mut stage = Stage::First;
    let mut size = 0;
    // Prover: the label names the loop in its proof, and its measure is a count, since a source need not end.
    'lines: for count in 0..u64::MAX {
        if at_end(&stage) {
            return Status::Done;
        }
        let line = match read_line(alloc, source, room(size)) {
            Ok(Some(line)) => line,
            Ok(None) => return Status::TraceFault(count + 1),
            Err(Stop::Read) => return Status::ReadFault,
            Err(Stop::Memory) => return Status::Memory,
        };
        let (text, next) = match step(alloc, stage, line.as_slice()) {
            Ok(Met::Goes(text, next)) => (text, next),
            Ok(Met::Faulty) => return Status::TraceFault(count + 1),
            Ok(Met::Refused(fault)) => return Status::ConfigFault(fault),
            Ok(Met::Unbuilt) => return Status::NotBuilt,
            Err(_) => return Status::Memory,
        };
        match write_all(sink, text.bytes()) {
            Ok(()) => stage = next,
            Err(_) => return Status::WriteFault,
        }
        size += line.len() + 1;
    }
    // More lines than there are numbers for them.
    Status::Memory
}
