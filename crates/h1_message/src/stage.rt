//! How far a reader is in a message.

ghost use Rattle.std.specs.Prelude.{◌≡◌};
ghost use Rattle.h1_message.specs.Stages.{is_close as close, cut, fault_at, headed_at, whole_at};

use h1_read::{BodyReader, H1Fault, HeadReader};
use http_model::{Direction, Length};

/// How far a reader is in a message.
///
/// ```text
///            first byte        a whole head         the last byte
///   Unbegun -----------> Head --------------> Body --------------> Whole
///                          |                    |
///                          | fault              | fault
///                          v                    v
///                        NoHead               NoBody
/// ```
///
/// A call may take several of these steps. The end of the bytes is kept beside it: it makes a body whole that ends with
/// the connection, and cuts short what isn't whole.
#[derive(Drop)]
pub(crate) enum Stage {
    /// Before the first byte; of a response, whether its request was HEAD.
    Unbegun(Direction, bool),
    /// The head isn't whole.
    Head(HeadReader),
    /// No head can be read.
    NoHead(H1Fault),
    /// The head is whole, and says that the body has this length.
    Body(Length, BodyReader),
    /// The body can't be read on.
    NoBody(H1Fault),
    /// The last byte came.
    Whole,
}

// Whether a body ends with the connection.
fn is_close(length: Length) -> bool
    ensures { result ≡ close length }
{
    match length {
        Length::NoBody => false,
        Length::Known(_) => false,
        Length::Chunked => false,
        Length::Close => true,
    }
}

// The fault of what an end leaves unfinished.
fn cut_short(ended: bool) -> Option<H1Fault>
    ensures { result ≡ cut ended }
{
    if ended { Some(H1Fault::CutShort) } else { None }
}

/// Whether a message has its head.
pub(crate) fn has_head(stage: &Stage) -> bool
    ensures { result ≡ headed_at stage.now }
{
    match stage {
        Stage::Unbegun(_, _) => false,
        Stage::Head(_) => false,
        Stage::NoHead(_) => false,
        Stage::Body(_, _) => true,
        Stage::NoBody(_) => true,
        Stage::Whole => true,
    }
}

/// Whether a message is whole.
pub(crate) fn is_whole(stage: &Stage, ended: bool) -> bool
    ensures { result ≡ whole_at stage.now ended }
{
    match stage {
        Stage::Unbegun(_, _) => false,
        Stage::Head(_) => false,
        Stage::NoHead(_) => false,
        Stage::Body(length, _) => ended && is_close(*length),
        Stage::NoBody(_) => false,
        Stage::Whole => true,
    }
}

/// What is wrong with a message.
pub(crate) fn fault(stage: &Stage, ended: bool) -> Option<H1Fault>
    ensures { result ≡ fault_at stage.now ended }
{
    match stage {
        Stage::Unbegun(Direction::Request, _) => None,
        Stage::Unbegun(Direction::Response, _) => cut_short(ended),
        Stage::Head(_) => cut_short(ended),
        Stage::NoHead(fault) => Some(*fault),
        Stage::Body(length, _) => cut_short(ended && !is_close(*length)),
        Stage::NoBody(fault) => Some(*fault),
        Stage::Whole => None,
    }
}
