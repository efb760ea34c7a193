//! What is kept of a live stream.

/// A live stream.
#[derive(Clone, Copy)]
pub struct Stream {
    pub id: u32,
    /// The peer has ended it.
    pub peer_ended: bool,
    /// This end has ended it.
    pub here_ended: bool,
    /// All blocks that came were interim responses.
    pub interim: bool,
    /// The increments that came less the DATA sent: with the initial size, the sending window.
    pub credit: i64,
    /// What the peer may send.
    pub receive: u32,
    /// The bytes that came since the last window update.
    pub unreturned: u32,
}
