//! Why bytes are refused.

use std::alloc::AllocError;
use thiserror::Error;

/// Why no frame is given.
#[derive(Clone, Copy, Debug, Error)]
pub enum FrameFault {
    /// The bytes are no frame: the code for the connection's end, one of `codes`.
    #[error("a frame is refused with the code {0}")]
    Code(u32),
    /// Out of memory.
    #[error("out of memory")]
    Memory,
}

impl From<AllocError> for FrameFault {
    ghost use Rattle.std.specs.Prelude.{◌≡◌};
    ghost use Rattle.h2_frames.specs.declared.fault.FrameFault.TheVariants.{Memory};

    ghost from_gives = { λ _ e. e ≡ Memory };

    fn from(_: AllocError) -> FrameFault {
        FrameFault::Memory
    }
}
