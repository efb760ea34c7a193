//! Plays sessions of HTTP/2 by a script: what the bytes of a peer bring, what goes out for them, and what calls
//! answer. A line is one of
//!
//! | line | does |
//! |---|---|
//! | `server` | begins a server's end, whose first bytes went out |
//! | `client` | begins a client's end, with requests on streams 1 and 3 of which the bodies go on, and whose first bytes went out |
//! | `new-server`, `new-client` | begins an end |
//! | `opened` | begins a client's end that opened streams 1 and 3 |
//! | `in HEX N` | gives it bytes of its peer, N times (once, without N), and writes what they bring, a line each |
//! | `out N` | writes the bytes that go out, taken in pieces of N bytes (64, without N) |
//! | `take N` | writes the next N bytes that go out, 64 at most |
//! | `head ID N`, `last-head ID N` | hands a head over, which has a field of N bytes where N isn't 0; the last one ends the stream |
//! | `send ID HEX N` | hands bytes over, N times as many, and writes how many were taken |
//! | `finish ID`, `reset ID CODE` | ends or resets a stream |
//! | `window ID`, `waiting ID`, `waits ID`, `control` | writes what the call answers |
//! | `# ..` | a heading, which is written as it stands |
#![tactic(auto)]

mod calls;
mod end;
mod play;
mod text;

use anyhow::Result;
use end::End;

fn main(rt: HostRuntime) -> Result<()> {
    let mut end = End::server(rt.alloc())?;
    for line in rt.lines(rt.alloc()) {
        let line = line?;
        let (next, told) = play::line(rt.alloc(), end, line.as_str())?;
        end = next;
        print!(rt; "{told}")?;
    }
    Ok(())
}
