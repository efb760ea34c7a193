//! The state of a stream.

/// The state of a stream: RFC 9113 section 5.1. Nothing is pushed, so no stream is ever reserved.
///
/// ```text
///                        +--------+
///                        |  Idle  |
///                        +--------+
///                            | `open`, or the peer's first HEADERS
///                            v
///                        +--------+
///           +------------| Active |------------+
///           |            +--------+            |
///           | END_STREAM      |     END_STREAM |
///           | received        |     sent       |
///           v                 |                v
///  +------------------+       |       +-----------------+
///  | HalfClosedRemote |       |       | HalfClosedLocal |
///  +------------------+       |       +-----------------+
///           |                 |                |
///           | END_STREAM      | reset by       | END_STREAM
///           | sent, or reset  | either end     | received, or reset
///           |                 v                |
///           |            +--------+            |
///           +----------->| Closed |<-----------+
///                        +--------+
/// ```
///
/// A reset is RST_STREAM of either end, or a server's GOAWAY with a lower last stream. END_STREAM of this end counts as
/// sent once it was handed over. On a closed stream DATA still counts for the connection's window and blocks are
/// decoded; all else on it is dropped.
#[derive(Clone, Copy)]
pub enum StreamState {
    Idle,
    /// Called open in RFC 9113.
    Active,
    /// Half-closed (local): this end has ended the stream.
    HalfClosedLocal,
    /// Half-closed (remote): the peer has ended the stream.
    HalfClosedRemote,
    Closed,
}
