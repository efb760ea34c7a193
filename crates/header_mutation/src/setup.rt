//! What one direction of an exchange is made with, and why it refuses an answer.

use crate::Rules;
use ext_msgs::PartModes;

/// What one direction of an exchange is made with.
#[derive(Drop)]
pub struct HalfSetup {
    /// The direction is that of the response.
    pub response: bool,
    pub modes: PartModes,
    pub rules: Rules,
    /// The most body bytes that are held, 1 to 1,048,576.
    pub buffer_limit: u32,
    /// The most bytes of an answer's body change, 1,024 to 2,097,152.
    pub answer_limit: u32,
}

/// Why an answer is refused. A place is that of the fault in the answer's mutation.
#[derive(Clone, Copy)]
pub enum HalfFault {
    /// No ask of this part is out, or the answer has a `streamed_response`.
    Spurious,
    /// An item of the mutation is invalid.
    Malformed(u32),
    /// An item of the mutation is forbidden, and `disallow_is_error` stands.
    Disallowed(u32),
    /// Out of memory.
    Memory,
}
