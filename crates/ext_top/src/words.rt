//! What the words of the command line ask for.
//!
//! | words | command |
//! |---|---|
//! | `replay` | reads a trace, writes its transcript |
//! | `show answer`, `show ask`, `show h2` | reads one line of hexadecimal digits, writes what they are |
//! | `load NUMBER COUNT` | runs COUNT generated exchanges |
//! | `proxy LISTEN UPSTREAM PROCESSOR COUNT` | serves as proxy |
//! | `processor LISTEN COUNT` | serves as processor |
//!
//! An address is `127.0.0.1:PORT` or `localhost:PORT`, PORT being from 1 to 65,535. NUMBER is below 2^64, and COUNT
//! from 1 to 100,000. Numbers are decimal, without sign or leading zero.

/// A port of this machine, given by its number or by its name.
#[derive(Clone, Copy, Debug)]
pub struct Address {
    /// `localhost`, and not `127.0.0.1`.
    pub named: bool,
    pub port: u16,
}

/// What the program is to do.
#[derive(Clone, Copy, Debug)]
pub enum Command {
    Replay,
    ShowAnswer,
    ShowAsk,
    ShowH2,
    /// The number from which the exchanges are generated, and how many they are.
    Load(u64, u32),
    /// Where to listen, the upstream, the processor, and how many exchanges to serve.
    Proxy(Address, Address, Address, u32),
    /// Where to listen, and how many connections to serve.
    Processor(Address, u32),
}
