//! Why a message isn't read.

use std::alloc::AllocError;

/// Why a message can't be read.
#[derive(Clone, Copy)]
pub enum H1Fault {
    /// The head is outside the grammar, has no usable host or target, or is of a status that isn't taken.
    BadHead,
    /// 32,768 bytes hold no whole head or trailer section, or a 101st field begins.
    LongHead,
    /// The fields give no length of the body: RFC 9112 section 6.3.
    BadLength,
    /// A chunk or a trailer section is outside the grammar.
    BadChunk,
    /// A request of HTTP/1.0.
    Version,
    /// A `CONNECT` request.
    Method,
    /// The bytes end before the message is whole.
    CutShort,
    /// Out of memory.
    Memory,
}

impl From<AllocError> for H1Fault {
    ghost use Rattle.std.specs.Prelude.{◌≡◌};
    ghost use Rattle.h1_read.specs.declared.fault.H1Fault.TheVariants.{Memory};

    ghost from_gives = { λ _ e. e ≡ Memory };

    fn from(_: AllocError) -> H1Fault {
        H1Fault::Memory
    }
}
