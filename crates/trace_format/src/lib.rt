//! The lines of traces, which `replay` reads, and of transcripts, which it writes.
//!
//! A trace is a list of lines, each ended by one line feed. One space stands between words. A number is decimal,
//! without sign or leading zero; bytes are an even number, not 0, of hexadecimal digits of either case, and are
//! written in lower case.
//!
//! | line of a trace | what happens |
//! |---|---|
//! | `trace 1 messages`, `trace 1 bytes` | the first line: what the processor's side of the trace is made of |
//! | `config TEXT` | the second line: the configuration |
//! | `open` | the next exchange begins; they are numbered from 1 |
//! | `client X HEX`, `up X HEX` | bytes arrive from the client or the upstream of exchange X |
//! | `client-end X`, `up-end X` | that link ends after the bytes that arrived |
//! | `client-lost X`, `up-lost X` | that link is lost at once |
//! | `up-nodial X` | the upstream couldn't be dialled |
//! | `answer X HEX`, `answer X -` | one answer of the processor, or one without bytes |
//! | `close X clean`, `close X error` | the processor's stream is closed |
//! | `ext HEX`, `ext-end`, `ext-lost` | the processor's link itself, where the trace is one of bytes |
//! | `tick N` | the clock shows N milliseconds |
//! | `hold client X`, `hold up X`, `hold ext` | nothing is taken from that port any more |
//! | `free client X`, `free up X`, `free ext` | taking starts again |
//! | `stop` | the end |
#![tactic(auto)]

mod fault;
mod forms;
mod laws;
mod line;
mod numbers;
mod out;
mod parts;
mod read;
mod word;

pub use fault::LineFault;
pub use laws::lines_are_read;
pub use line::TraceLine;
pub use numbers::number;
pub use out::{OutLine, write_line};
pub use parts::read_hex;
pub use read::read_line;
