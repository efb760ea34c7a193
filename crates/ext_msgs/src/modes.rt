//! Which parts of a message a processor is asked about.

/// How the body of one direction is asked.
#[derive(Clone, Copy)]
pub enum BodyMode {
    /// It passes unasked: `NONE`.
    NoAsk,
    /// Piece by piece, as it arrives: `STREAMED`.
    Streamed,
    /// At once, after its end: `BUFFERED`.
    Buffered,
    /// At once, after its end or as soon as the buffer is full: `BUFFERED_PARTIAL`.
    Partial,
}

/// What is asked in one direction.
#[derive(Clone, Copy)]
pub struct PartModes {
    pub headers: bool,
    pub body: BodyMode,
    pub trailers: bool,
}
