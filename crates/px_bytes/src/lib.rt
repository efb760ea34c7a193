//! Bytes that wait: a queue of bounded length, and a queue of pieces.
#![tactic(auto)]

mod pieces;
mod queue;

pub use pieces::Pieces;
pub use queue::{ByteQueue, Full};
