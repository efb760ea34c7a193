//! Plays calls of a value that seats take turns at, by a script. A line is one of
//!
//! | line | does |
//! |---|---|
//! | `alone N ..` | one seat adds numbers |
//! | `seats N ..` | two seats add numbers in turn, and are joined |
//! | `threads N M` | two threads add 1, one of them N times and the other M times |
//! | `meet N` | a thread calls while another thread has the value out, and N is the call's operand |
//!
//! Each begins a table. Any other line is a heading, and is written as it stands.
#![tactic(auto)]

mod play;
mod seats;
mod sum;
mod threads;

use anyhow::Result;

fn main(rt: HostRuntime) -> Result<()> {
    for line in rt.lines(rt.alloc()) {
        play::line(&rt, rt.alloc(), line?.as_str())?;
    }
    Ok(())
}
