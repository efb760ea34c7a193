//! Plays gRPC calls by a script: what a client writes, and what a reader makes of a response. A line is one of
//!
//! | line | does |
//! |---|---|
//! | `call AUTHORITY` | writes the head of a call |
//! | `frame HEX` | writes a message behind its prefix |
//! | `reader LIMIT` | begins a reader of messages of at most so many bytes |
//! | `head NAME=VALUE ..` | a field block that doesn't end the stream |
//! | `last NAME=VALUE ..` | a field block that ends it |
//! | `data HEX`, `end HEX` | DATA, without and with END_STREAM, given again behind each message |
//! | `bytes HEX` | DATA, a byte at a time |
//! | `held` | how many bytes the reader keeps |
//!
//! Any other line is a heading, and is written as it stands.
#![tactic(auto)]

mod operands;
mod play;

use anyhow::Result;
use grpc_call::CallReader;

fn main(rt: HostRuntime) -> Result<()> {
    let mut reader = CallReader::new(rt.alloc(), 0);
    for line in rt.lines(rt.alloc()) {
        play::line(&rt, &mut reader, line?.as_str())?;
    }
    Ok(())
}
