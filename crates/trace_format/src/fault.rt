//! Why a line isn't read.

use std::alloc::AllocError;

/// Why a line isn't read.
#[derive(Clone, Copy)]
pub enum LineFault {
    /// It is no line of a trace.
    Bad,
    /// Out of memory.
    Memory,
}

impl From<AllocError> for LineFault {
    ghost use Rattle.std.specs.Prelude.{◌≡◌};
    ghost use Rattle.trace_format.specs.declared.fault.LineFault.TheVariants.{Memory};

    ghost from_gives = { λ _ e. e ≡ Memory };

    fn from(_: AllocError) -> LineFault {
        LineFault::Memory
    }
}
