//! What a session answers.

use ext_msgs::FieldList;
use pb_wire::Blob;
use std::alloc::AllocError;

/// What a frame brought.
#[derive(Debug, Drop)]
pub enum Event {
    Nothing,
    /// A field block of a stream, and whether the stream ends.
    Head(u32, FieldList, bool),
    /// Content of a stream without its padding, and whether the stream ends.
    Data(u32, Blob, bool),
    /// A stream, and the error code with which either end reset it.
    Reset(u32, u32),
    /// The last stream and the error code.
    GoAway(u32, u32),
}

/// How many bytes were used, and what they brought.
#[derive(Debug, Drop)]
pub struct Fed {
    pub used: u32,
    pub event: Event,
}

/// Why bytes are refused.
#[derive(Clone, Copy, Debug, PartialEq, Eq)]
pub enum SessionFault {
    /// The first connection error, with its code: RFC 9113 section 7.
    Code(u32),
    /// Memory ran out.
    Memory,
}

impl From<AllocError> for SessionFault {
    ghost use Rattle.std.specs.Prelude.{◌≡◌};
    ghost use Rattle.h2_model.specs.declared.answers.SessionFault.TheVariants.{Memory};

    ghost from_gives = { λ _ e. e ≡ Memory };

    fn from(_: AllocError) -> SessionFault {
        SessionFault::Memory
    }
}

/// No stream can be opened: the peer's limit is reached, the numbers are used up, or GOAWAY came.
#[derive(Clone, Copy, Debug, PartialEq, Eq)]
pub struct NoStream;
