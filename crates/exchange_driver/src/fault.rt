//! Why a call isn't made.

use std::alloc::AllocError;
use thiserror::Error;

/// Why a call isn't made, or fails.
#[derive(Clone, Copy, Debug, Error)]
pub enum DriveFault {
    /// The configuration is refused.
    #[error("configuration")]
    Config,
    /// Its condition isn't met.
    #[error("not now")]
    NotNow,
    #[error("out of memory")]
    Memory,
}

impl From<AllocError> for DriveFault {
    ghost use Rattle.std.specs.Prelude.{◌≡◌};
    ghost use Rattle.exchange_driver.specs.declared.fault.DriveFault.TheVariants.{Memory};

    ghost from_gives = { λ _ e. e ≡ Memory };

    fn from(_: AllocError) -> DriveFault {
        DriveFault::Memory
    }
}
