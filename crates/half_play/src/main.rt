//! Plays one direction of a message by a script: what is told to a half, and what it hands out. A line is one of
//!
//! | line | does |
//! |---|---|
//! | `half WAY HEADERS BODY TRAILERS LIMIT` | begins a half of a `request` or `response`, whose headers and trailers are `send` or `skip`, whose body is `none`, `streamed`, `buffered` or `partial`, with a buffer of so many bytes |
//! | `settle HEADERS BODY TRAILERS` | other modes |
//! | `head LENGTH FIELDS` | its head, with the length `none`, `chunked`, `close` or a number |
//! | `data TEXT` | bytes of its body, in pieces as there is room |
//! | `last TEXT` | the last bytes of its body |
//! | `end FIELDS` | its end, with trailers |
//! | `ask`, `sent` | hands out an ask; tells that one was sent |
//! | `asks` | hands out all asks, and tells that each was sent |
//! | `answer PART, ..` | an answer, whose parts `answers.rt` lists |
//! | `release` | the rest passes |
//! | `out MAX` | hands out all parts, the bytes that pass in pieces of at most so many, and tells that all were given |
//! | `state` | the room, the asks that are out, the bytes that are kept, and whether the body is over its limit |
//! | `# ..` | a heading |
//!
//! Fields are `NAME=VALUE` with a space between two. `<N PART>` is a part so many times, and so are bytes told that are
//! the same eight times or more.
#![tactic(auto)]

mod answers;
mod parts;
mod play;
mod setup;
mod text;

use anyhow::Result;

fn main(rt: HostRuntime) -> Result<()> {
    let mut driver = setup::half_of(rt.alloc(), "request skip none skip 1")?;
    for line in rt.lines(rt.alloc()) {
        let told = play::line(rt.alloc(), &mut driver, line?.as_str())?;
        println!(rt; "{told}")?;
    }
    Ok(())
}
