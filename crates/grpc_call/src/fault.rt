//! Why a call fails.

use std::alloc::AllocError;
use thiserror::Error;

/// Why a response is no response of a gRPC call.
#[derive(Clone, Copy, Debug, Error)]
pub enum CallFault {
    /// A head that isn't one of a gRPC response, or DATA before it.
    #[error("no head of a gRPC response")]
    Head,
    /// A message whose flag isn't 0: no compression was offered.
    #[error("a compressed message")]
    Compressed,
    /// A message that is longer than the limit, and its length.
    #[error("a message of {0} bytes is too long")]
    TooLong(u32),
    /// The stream ended within a message.
    #[error("the stream ended within a message")]
    Cut,
    /// The stream ended without a decimal `grpc-status`.
    #[error("the stream ended without a grpc-status")]
    NoStatus,
    /// Out of memory.
    #[error("out of memory")]
    Memory,
}

impl From<AllocError> for CallFault {
    ghost use Rattle.std.specs.Prelude.{◌≡◌};
    ghost use Rattle.grpc_call.specs.declared.fault.CallFault.TheVariants.{Memory};

    ghost from_gives = { λ _ e. e ≡ Memory };

    fn from(_: AllocError) -> CallFault {
        CallFault::Memory
    }
}
