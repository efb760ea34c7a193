//! HTTP/1.1 messages as they are written: heads, chunks and the last chunk (RFC 9112 sections 3 to 7).
#![tactic(auto)]

mod chunk;
mod fields;
mod head;
mod reason;

pub use chunk::{chunk_bytes, last_bytes};
pub use head::{request_bytes, response_bytes};
