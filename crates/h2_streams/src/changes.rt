//! What becomes of one stream.

ghost use Rattle.std.specs.Prelude.{◌≡◌, IfSome};
ghost use Rattle.h2_model.specs.Moves.{new_stream, unless_over};
ghost use Rattle.h2_streams.specs.Changes.{changed, Allows, Counts, Same};
ghost use Rattle.h2_streams.specs.Tables.{HasCreditInRange};

use h2_frames::protocol::FIRST_WINDOW;
use h2_model::Stream;

/// What happens to a live stream.
#[derive(Clone, Copy)]
pub enum Change {
    /// DATA came: whether it ends the stream, and its length with padding.
    DataCame(bool, u32),
    /// A block came: whether it ends the stream.
    BlockCame(bool),
    /// The block was decoded: whether it is an interim response.
    HeadCame(bool),
    /// A window update came.
    IncrementCame(u32),
    /// DATA was handed over: whether it ends the stream, and its length.
    DataSent(bool, u32),
    /// A block was handed over: whether it ends the stream.
    BlockSent(bool),
    /// A window update is owed.
    UpdateOwed(u32),
    /// A window update went out.
    UpdateGiven(u32),
    /// Either end reset it.
    Reset,
}

/// A stream before its first frame.
pub(crate) fn new_stream(id: u32) -> Stream
    ensures { result ≡ new_stream id }
{
    Stream {
        id,
        peer_ended: false,
        here_ended: false,
        interim: true,
        credit: 0,
        receive: FIRST_WINDOW,
        unreturned: 0,
    }
}

// The stream, unless both ends have ended it.
fn unless_over(stream: Stream) -> Option<Stream>
    ensures over { result ≡ unless_over stream }
    ensures same { IfSome result (λ s. s ≡ stream) }
{
    if stream.peer_ended && stream.here_ended {
        return None;
    }
    Some(stream)
}

/// The stream, or none where it is over.
#[tactic(auto, unfolding(crate::specs::Changes::changed))]
pub(crate) fn changed(stream: Stream, change: Change) -> Option<Stream>
    requires fits { Allows change stream }
    requires range { HasCreditInRange stream }
    ensures changed { Counts change stream → result ≡ changed change stream }
    ensures same { IfSome result (Same stream) }
{
    match change {
        Change::DataCame(last, size) => unless_over(Stream {
            peer_ended: last || stream.peer_ended,
            receive: stream.receive.saturating_sub(size),
            unreturned: stream.unreturned.saturating_add(size),
            ..stream
        }),
        Change::BlockCame(last) => unless_over(Stream {
            peer_ended: last || stream.peer_ended,
            ..stream
        }),
        Change::HeadCame(interim) => Some(Stream {
            interim: interim && stream.interim,
            ..stream
        }),
        Change::IncrementCame(n) => Some(Stream {
            credit: stream.credit + i64::from(n),
            ..stream
        }),
        Change::DataSent(last, size) => unless_over(Stream {
            here_ended: last || stream.here_ended,
            credit: stream.credit - i64::from(size),
            ..stream
        }),
        Change::BlockSent(last) => unless_over(Stream {
            here_ended: last || stream.here_ended,
            ..stream
        }),
        Change::UpdateOwed(n) => Some(Stream {
            unreturned: stream.unreturned.saturating_sub(n),
            ..stream
        }),
        Change::UpdateGiven(n) => Some(Stream {
            receive: stream.receive.saturating_add(n),
            ..stream
        }),
        Change::Reset => None,
    }
}
