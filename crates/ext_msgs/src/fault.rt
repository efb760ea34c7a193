//! Why a message could not be read.

ghost use Rattle.std.specs.Prelude.{◌≡◌};
ghost use Rattle.ext_msgs.specs.declared.fault.MsgFault.TheVariants.{Memory, Wire};

use pb_wire::WireFault;
use std::alloc::{AllocError, AllocFailed};
use thiserror::Error;

/// Why bytes are no message. Places count from the first byte of all that is read.
#[derive(Clone, Copy, Debug, Error)]
pub enum MsgFault {
    /// The bytes, or those of an embedded message, are no records.
    #[error("{0}")]
    Wire(WireFault),
    /// The text whose record is at this place isn't UTF-8.
    #[error("the text at {0} isn't UTF-8")]
    Utf8(u32),
    /// The number whose record is at this place is outside the values of its field. An immediate response without a
    /// status code is refused at its own place.
    #[error("the number at {0} is outside the values of its field")]
    BadNumber(u32),
    /// No member of the oneof is set, and an answer has no timeout override either.
    #[error("no member is set")]
    NoMember,
    /// Memory ran out.
    #[error("out of memory")]
    Memory,
}

impl From<WireFault> for MsgFault {
    ghost from_gives = { λ f e. e ≡ Wire f };

    fn from(f: WireFault) -> MsgFault {
        MsgFault::Wire(f)
    }
}

impl From<AllocError> for MsgFault {
    ghost from_gives = { λ _ e. e ≡ Memory };

    fn from(_e: AllocError) -> MsgFault {
        MsgFault::Memory
    }
}

impl<T: Drop> From<AllocFailed<T>> for MsgFault {
    ghost from_gives = { λ _ e. e ≡ Memory };

    fn from(_e: AllocFailed<T>) -> MsgFault {
        MsgFault::Memory
    }
}
