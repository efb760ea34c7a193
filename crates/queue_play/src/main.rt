//! Plays queues, holds, sources and sinks by a script. A line names what is made, and behind commas what is done with
//! it:
//!
//! | line | does |
//! |---|---|
//! | `queue LIMIT` | `push TEXT`, `drop COUNT`, `turns COUNT` (each pushes letters until the queue is full, and drops three) |
//! | `pieces` | `push TEXT`, `pop` |
//! | `hold` | `put TEXT`, `lend COUNT`, `keep`, `replace TEXT`, `clear`, `pass COUNT`, `pass-lent`, `take COUNT`, `take-hand COUNT` |
//! | `source TEXT FAILING`, `sure-source TEXT` | `read SIZE`, all into the same buffer |
//! | `sink ROOM FAILING`, `sure-sink ROOM` | `write TEXT` |
//!
//! `FAILING` is the number of the call that fails, from 0. Each line ends with what is left. Any other line is a
//! heading, and is written as it stands.
#![tactic(auto)]

mod edge;
mod hold;
mod queue;

use anyhow::Result;

// A word and what stands behind it.
fn parted(text: &str) -> (&str, &str) {
    text.split_once(' ').unwrap_or((text, ""))
}

// Plays a line.
fn play(rt: &HostRuntime, line: &str) -> Result<()> {
    let (made, steps) = line.split_once(", ").unwrap_or((line, ""));
    let (kind, operands) = parted(made);
    match kind {
        "queue" => queue::play(rt, operands, steps),
        "pieces" => queue::play_pieces(rt, steps),
        "hold" => hold::play(rt, steps),
        "source" => edge::source(rt, operands, steps),
        "sure-source" => edge::sure_source(rt, operands, steps),
        "sink" => edge::sink(rt, operands, steps),
        "sure-sink" => edge::sure_sink(rt, operands, steps),
        _ => Ok(println!(rt; "{line}")?),
    }
}

fn main(rt: HostRuntime) -> Result<()> {
    for line in rt.lines(rt.alloc()) {
        play(&rt, line?.as_str())?;
    }
    Ok(())
}
