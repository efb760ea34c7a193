//! One side's whole HTTP/1.1 message as it comes, in any pieces: its head, its body, its trailers, and its end.
//!
//! What a `MessageReader` tells is how `reads` of `http_model` grows with all bytes so far (`specs/Source.antt`).
#![tactic(auto)]

mod body;
mod head;
mod news;
mod reader;
mod stage;
mod step;

pub use news::News;
pub use reader::MessageReader;
