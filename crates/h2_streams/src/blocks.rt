//! Field blocks that come in parts.

use std::marker::Model;

/// A block of which a part is missing.
#[derive(Drop)]
pub struct PartialBlock {
    pub stream: u32,
    pub bytes: Vec<u8>,
    /// Its HEADERS ends the stream.
    pub last: bool,
}

impl Model for PartialBlock {
    ghost use Rattle.h2_model.specs.Blocks.{OpenBlock};

    ghost Value = { OpenBlock };

    ghost view = { λ b. record { stream = b.stream; bytes = b.bytes.items; last = b.last } };
}

/// The most bytes of a block: RFC 9113 section 10.5.1 lets an endpoint set a limit.
pub const LONGEST: usize = 65_536;
