//! The header blocks of HTTP/2: HPACK, RFC 7541.
//!
//! A [`Decoder`] reads the blocks of a connection, one after another, and an [`Encoder`] writes them. The fields are
//! those of `ext_msgs`.
#![tactic(auto)]

mod block;
mod decoder;
mod encoder;
mod fault;
mod laws;
mod static_table;
mod strings;
mod table;
mod writing;

pub use decoder::Decoder;
pub use encoder::Encoder;
pub use fault::HpackFault;
pub use laws::{blocks, written_block_is_read};
