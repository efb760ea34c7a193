//! The ports of a hub, and why it opens no exchange.

/// A port of a hub: each has a link of its own. An exchange has two ports, under its number, which is 1 or more; all
/// share the processor's.
#[derive(Clone, Copy, Debug, PartialEq, Eq)]
pub enum PortName {
    Client(u32),
    Upstream(u32),
    Processor,
}

/// Why no exchange is opened.
#[derive(Clone, Copy, Debug, PartialEq, Eq)]
pub enum OpenFault {
    /// As many exchanges are live as there may be.
    Full,
    /// 2^32 - 1 exchanges were opened.
    Spent,
    /// Memory ran out.
    Memory,
}
