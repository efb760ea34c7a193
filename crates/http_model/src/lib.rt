//! What one HTTP/1.1 message is: what its bytes so far give, and how it is written. RFC 9112, RFC 9110.
//!
//! The definitions stand in `specs/`, and everything above cites them: `Reads` for what comes in, `Wire` for what goes
//! out.
#![tactic(auto)]

mod laws;
mod types;

pub use laws::{chunk_sizes, reading_on};
pub use types::{Direction, Framing, Length, Out};
