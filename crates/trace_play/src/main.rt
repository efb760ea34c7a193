//! Plays the lines of traces, configurations and whole commands by a script. A line is one of
//!
//! | line | does |
//! |---|---|
//! | `line TEXT`, `bytes HEX` | reads a line of a trace |
//! | `to-up EXCHANGE HEX`, `abort-client EXCHANGE` | writes a line of a transcript |
//! | `command WORD ..` | says what the words of the command line ask for |
//! | `config TEXT` | reads a configuration |
//! | `config` | reads the configuration in the lines below |
//! | `run WORD ..` | runs a command over the lines below |
//! | `cut WORD ..` | the same without the last line feed |
//! | `room COUNT WORD ..` | the same with room for so many bytes |
//! | `failing-reads WORD ..` | the same again for each byte of the lines, the read of which fails |
//! | `failing-writes COUNT WORD ..` | the same for each of the first writes |
//!
//! The lines below end before a line `.`; of them, `TEXT * DIGITS * COUNT` is a text and then digits so many times. Any
//! other line is a heading, and is written as it stands.
#![tactic(auto)]

mod configs;
mod lines;
mod runs;
mod script;

use anyhow::Result;

fn main(rt: HostRuntime) -> Result<()> {
    let mut block = None;
    for line in rt.lines(rt.alloc()) {
        block = script::play(&rt, block, line?.as_str())?;
    }
    Ok(())
}
