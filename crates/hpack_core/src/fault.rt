//! Why bytes are no block.

ghost use Rattle.std.specs.Prelude.{◌≡◌};
ghost use Rattle.hpack_core.specs.declared.fault.HpackFault.TheVariants.{Memory, Prim};

use hpack_prim::PrimFault;
use std::alloc::{AllocError, AllocFailed};
use thiserror::Error;

/// Why bytes are no block. Places count from the first byte of the block.
#[derive(Clone, Copy, Debug, Error)]
pub enum HpackFault {
    /// An integer or a string is at fault.
    #[error("{0}")]
    Prim(PrimFault),
    /// The representation at this place has the index 0, or one past both tables.
    #[error("the index at {0} is in no table")]
    Index(u32),
    /// The representation at this place sets a size above 4,096, or it sets a size behind a field.
    #[error("the size update at {0} is out of place or too large")]
    TableSize(u32),
    /// The sizes of the fields, each of which is the bytes of name and value and 32, pass 65,536.
    #[error("the list of fields is too large")]
    ListSize,
    /// Memory ran out.
    #[error("out of memory")]
    Memory,
}

impl From<PrimFault> for HpackFault {
    ghost from_gives = { λ fault e. e ≡ Prim fault };

    fn from(fault: PrimFault) -> HpackFault {
        HpackFault::Prim(fault)
    }
}

impl From<AllocError> for HpackFault {
    ghost from_gives = { λ _ e. e ≡ Memory };

    fn from(_e: AllocError) -> HpackFault {
        HpackFault::Memory
    }
}

impl<T: Drop> From<AllocFailed<T>> for HpackFault {
    ghost from_gives = { λ _ e. e ≡ Memory };

    fn from(_e: AllocFailed<T>) -> HpackFault {
        HpackFault::Memory
    }
}
