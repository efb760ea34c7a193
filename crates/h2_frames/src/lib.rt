//! HTTP/2 frames: RFC 9113 sections 4 and 6.
//!
//! A frame is nine bytes and a payload: the payload's length in 24 bits, the type, the flags, a reserved bit that isn't
//! read, the stream in 31 bits; numbers have their greatest byte first. A length above 16,384 is refused.
//!
//! | type | code | flags that are read | stream | length | payload |
//! |---|---|---|---|---|---|
//! | DATA | 0 | END_STREAM 1, PADDED 8 | not 0 | at least the pad byte | pad byte, content, padding |
//! | HEADERS | 1 | END_STREAM 1, END_HEADERS 4, PADDED 8, PRIORITY 0x20 | not 0 | at least the pad byte and 5 bytes of priority | pad byte, priority, block, padding |
//! | PRIORITY | 2 | | not 0 | any | isn't read |
//! | RST_STREAM | 3 | | not 0 | 4 | error code |
//! | SETTINGS | 4 | ACK 1 | 0 | a multiple of 6, or 0 with ACK | 2 bytes of identifier and 4 of value each |
//! | PUSH_PROMISE | 5 | | not 0 | any | isn't read |
//! | PING | 6 | ACK 1 | 0 | 8 | opaque |
//! | GOAWAY | 7 | | 0 | at least 8 | last stream, error code, bytes that aren't read |
//! | WINDOW_UPDATE | 8 | | any | 4 | increment in 31 bits |
//! | CONTINUATION | 9 | END_HEADERS 4 | not 0 | any | block |
//! | others | | | any | any | isn't read |
//!
//! A wrong length is a FRAME_SIZE_ERROR, a wrong stream a PROTOCOL_ERROR; the nine bytes tell both, and of both the
//! first. Padding longer than what the frame has left for it is a PROTOCOL_ERROR, and is told once the whole frame is
//! there.
#![tactic(auto)]

pub mod codes;
mod continuation;
mod copy;
mod data_frame;
mod fault;
pub mod flags;
mod frame;
mod goaway;
mod header;
mod headers_frame;
mod laws;
mod numbers;
mod padding;
mod ping;
mod priority;
pub mod protocol;
mod push_promise;
mod reader;
mod rst_stream;
mod settings;
pub mod types;
mod window_update;
mod write;

pub use copy::copy_into;
pub use fault::FrameFault;
pub use frame::{Frame, Setting, SettingList};
pub use laws::{
    faults_stand, frames_in_any_cut, one_list_of_frames, padding_is_left_out, written_is_read,
};
pub use reader::{FrameReader, Step};
pub use write::{copy_continuation, copy_frame, copy_headers, frame_len};
