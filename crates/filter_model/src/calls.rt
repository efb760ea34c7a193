//! The calls of an exchange, and what they answer.

use pb_wire::Blob;

/// A side of an exchange, each with a link of its own.
#[derive(Clone, Copy, Debug, PartialEq, Eq)]
pub enum Side {
    Client,
    Upstream,
}

/// How a link was lost.
#[derive(Clone, Copy, Debug, PartialEq, Eq)]
pub enum Loss {
    /// It was never there: the dial failed.
    NoDial,
    /// It broke.
    Broken,
}

/// What an exchange meets.
#[derive(Debug, Drop)]
pub enum Event {
    /// A side brought bytes.
    Bytes(Side, Blob),
    /// A side ended its stream.
    End(Side),
    /// A side's link is lost.
    Lost(Side, Loss),
    /// A message of the processor: the bytes of a `ProcessingResponse`.
    Answer(Blob),
    /// The processor began a message that is longer than the answer limit.
    TooLong,
    /// The processor's stream was closed; true where it ended with grpc-status 0.
    Closed(bool),
    /// No stream to the processor could be opened.
    NoStream,
    /// The clock, in milliseconds.
    Tick(u64),
    /// Memory was refused.
    Starved,
    /// The oldest ask not yet sent was sent.
    Sent,
}

/// What a port is given next.
#[derive(Debug, Drop)]
pub enum Taken {
    /// From 1 to as many bytes as were asked for.
    Piece(Blob),
    /// Nothing waits by now.
    Nothing,
    /// All was given.
    Done,
    /// The link is to be aborted.
    Abort,
    /// The number isn't that of a live exchange. An exchange by itself never answers it.
    Gone,
}

/// What the processor's stream is given next.
#[derive(Debug, Drop)]
pub enum Next {
    /// The bytes of a `ProcessingRequest`.
    Ask(Blob),
    /// The stream is to be ended.
    Finish,
    /// The stream is to be reset.
    Reset,
    /// Nothing by now.
    Nothing,
}
