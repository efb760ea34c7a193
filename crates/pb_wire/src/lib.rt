//! The Protobuf wire format (protobuf.dev, "Encoding"), and the lists that its messages are made of.
#![tactic(auto)]

mod blob;
mod fault;
mod items;
mod laws;
mod reader;
mod varint;
mod writer;

pub use blob::Blob;
pub use fault::{Cause, WireFault};
pub use items::{Duplicate, Items};
pub use laws::{fault_stays, one_first_fault, one_list_of_records, parts_of_bytes};
pub use reader::{Payload, Reader, Record};
pub use writer::Writer;
