//! HTTP/2 sessions: one connection's streams, windows and errors, in both roles: RFC 9113 sections 3 to 7.
//!
//! The crate has the definitions. They stand in `specs/`: a session is its log ([`Event`] is what the log reports), and
//! all else is filters and sums over it. Read `Log` first, then `Streams`, `Windows`, `Violations`, `StreamFaults`,
//! `Duties` and `History`, and `Calls` for what each call answers.
//!
//! | frame | a client gets | a server gets | this end sends | stream | length |
//! |---|---|---|---|---|---|
//! | DATA | yes | yes | behind `send` and `finish` | not 0 | any within the windows; 0 to 16,384 sent |
//! | HEADERS | yes | yes | behind `head` | not 0 | a block has at most 65,536; the first 16,384 sent |
//! | PRIORITY | yes, ignored | yes, ignored | never | not 0 | any |
//! | RST_STREAM | yes | yes | for a stream error, behind `reset` | not 0 | 4 |
//! | SETTINGS | yes, first | yes, first | first | 0 | 6 for each; 6 sent |
//! | SETTINGS with ACK | yes, ignored | yes, ignored | for SETTINGS | 0 | 0 |
//! | PUSH_PROMISE | PROTOCOL_ERROR | PROTOCOL_ERROR | never | not 0 | any |
//! | PING | yes | yes | with ACK, for PING without | 0 | 8 |
//! | GOAWAY | yes | yes | for a connection error | 0 | at least 8; 8 sent |
//! | WINDOW_UPDATE | yes | yes | once 32,768 bytes were taken | any | 4 |
//! | CONTINUATION | behind HEADERS | behind HEADERS | behind HEADERS | that of HEADERS | the next 16,384 of the block |
//! | others | yes, ignored | yes, ignored | never | any | any |
//!
//! No frame has a length above 16,384. A server's input begins with the client's preface, 24 bytes.
#![tactic(auto)]

mod answers;
mod gap;
mod laws;
mod stream;
mod stream_state;

pub use answers::{Event, Fed, NoStream, SessionFault};
pub use gap::Gap;
pub use laws::{
    bytes_in_any_cut, first_violation_stays, given_bytes_are_dropped, log_only_grows,
    no_violation_at_first, states_of_live_streams, windows_are_sums,
};
pub use stream::Stream;
pub use stream_state::StreamState;
