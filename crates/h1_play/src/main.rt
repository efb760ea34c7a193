//! Plays HTTP/1.1 by a script: what readers make of the bytes of messages, and what is written. A line is one of
//!
//! | line | does |
//! |---|---|
//! | `READER TEXT` | a new reader gets the text in pieces of 1, 2, 3, 7 and 100 bytes and whole: what it makes of them, and `at` which byte it tells that, byte by byte |
//! | `begin READER` | begins a reader, for the lines below |
//! | `feed TEXT` | that reader gets the text as one piece: what it answers |
//! | `held` | how many bytes it keeps |
//! | `end` | the bytes are ended: whether the body is whole |
//! | `section TEXT` | reads a trailer section |
//! | `write request FRAMING FIELDS`, `write response FRAMING FIELDS` | writes a head, with the framing `none`, `chunked` or a length |
//! | `write chunk TEXT`, `write last FIELDS` | writes a chunk, or the last one with trailers |
//! | `laws` | calls the laws of the readers |
//! | `# ..` | a heading |
//!
//! A reader is `request`, `response`, `response-to-head`, or of a body: `body-none`, `body-chunked`, `body-close` or
//! `body-N` of so many bytes. Fields are `NAME=VALUE` with a space between two. In a text, `\r`, `\n`, `\t` and `\0`
//! are bytes as in Rust, `\s` is a space, and `<N PART>` is a part so many times.
#![tactic(auto)]

mod cuts;
mod play;
mod reader;
mod text;
mod write;

use anyhow::Result;
use reader::Reader;

fn main(rt: HostRuntime) -> Result<()> {
    let mut reader = Reader::begin(rt.alloc(), "request")?;
    for line in rt.lines(rt.alloc()) {
        let told = play::line(rt.alloc(), &mut reader, line?.as_str())?;
        println!(rt; "{told}")?;
    }
    Ok(())
}
