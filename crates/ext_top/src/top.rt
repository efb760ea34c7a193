//! The commands, over any source and sink.

ghost use Rattle.std.specs.Prelude.{◌≡◌, map};
ghost use Rattle.px_edge.specs.Causes.{Rose};
ghost use Rattle.ext_top.specs.Commands.{command_of};
ghost use Rattle.ext_top.specs.Runs.{RunsAs, IsBuilt};

use crate::parse::command;
use crate::replay::replay;
use crate::show::{Kind, show};
use crate::status::Status;
use crate::words::Command;
use px_edge::{Sink, Source};
use std::alloc::Global;

/// Runs a command that reads a source and writes to a sink.
pub fn run<S: Source, K: Sink>(
    alloc: Global,
    words: &[&str],
    source: &mut S,
    sink: &mut K,
) -> Status
    ensures outcome { RunsAs (command_of (map (λ w. w.now) words.now)) result (S.left source.old)
        (S.left source.new) (K.written sink.old) (K.written sink.new) }
    ensures usage { result ≡ Status.Usage → IsBuilt (command_of (map (λ w. w.now) words.now)) → ⊥ }
    ensures read { result ≡ Status.ReadFault → Rose (S.faults source.old) (S.faults source.new) }
    ensures write { result ≡ Status.WriteFault → Rose (K.faults sink.old) (K.faults sink.new) }
{
    match command(words) {
        Some(Command::Replay) => replay(alloc, source, sink),
        Some(Command::ShowAnswer) => show(alloc, Kind::Answer, source, sink),
        Some(Command::ShowAsk) => show(alloc, Kind::Ask, source, sink),
        Some(Command::ShowH2) => show(alloc, Kind::Frames, source, sink),
        _ => Status::Usage,
    }
}
