//! gRPC calls over HTTP/2, at a client's end: a prefix of five bytes before each message, and a status behind the last.
//!
//! ```text
//!            not ending: 1xx                DATA: messages, one by one
//!                 ┌──┐                              ┌──┐
//!                 │  ▼   200, application/grpc      │  ▼   a block that ends the stream
//!  CallReader::new ──────────────────────────▶ headed ─────────────────────────────────▶ grpc-status
//!                 │
//!                 └── 200, and the stream ends ──▶ grpc-status
//! ```
//!
//! Anything else is a fault, with a case of its own in [`CallFault`], and closes the stream.
#![tactic(auto)]

mod fault;
mod heads;
mod laws;
mod prefix;
mod reader;
mod serving;
mod status;
mod writing;

pub use fault::CallFault;
pub use laws::{
    cut_data_is_joined, data_is_told, ends_are_told, heads_are_told, reader_begins,
    written_message_is_read,
};
pub use reader::CallReader;
pub use serving::{refusal_of, response_head, status_trailers};
pub use status::status_of;
pub use writing::{call_head, frame_of};
