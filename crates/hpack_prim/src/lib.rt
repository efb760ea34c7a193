//! The primitives of HPACK (RFC 7541, section 5): integers, and the Huffman code of strings.
//!
//! No function takes memory. Bytes come as slices, and places in them are numbers of 32 bits.
#![tactic(auto)]

mod decode;
mod decode_table;
mod encode;
mod encode_table;
mod fault;
mod integer;
mod laws;

pub use decode::huff_decode;
pub use encode::{huff_encode, huff_len};
pub use fault::PrimFault;
pub use integer::{read_int, write_int};
pub use laws::{huffman_strings, integers, no_code_begins_another, written_integer_is_read};
