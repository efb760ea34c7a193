//! Why bytes are no integer and no Huffman string.

use thiserror::Error;

/// Why bytes are no integer or no Huffman string. Places count from the first byte that was given.
#[derive(Clone, Copy, Debug, Error)]
pub enum PrimFault {
    /// A byte is missing at this place.
    #[error("a byte is missing at {0}")]
    Truncated(u32),
    /// By the byte at this place the integer passes 2^32 - 1, or the byte is a sixth continuation byte.
    #[error("the integer is too large by the byte at {0}")]
    TooLarge(u32),
    /// The end code begins in the byte at this place.
    #[error("the end code begins in the byte at {0}")]
    Eos(u32),
    /// What begins in the byte at this place is no code, and it is eight bits or more, or has a 0 bit.
    #[error("what begins in the byte at {0} is no code and no padding")]
    Padding(u32),
}
