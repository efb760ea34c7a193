//! HTTP/2 sessions: one connection's streams, windows and errors, in both roles, as a state machine that never waits:
//! RFC 9113 sections 3 to 7.
//!
//! A [`Session`] takes the peer's bytes by `feed` and says what they brought; `open`, `head`, `send`, `finish` and
//! `reset` hand frames over, and `take` gives the bytes that go out. The definitions that its contracts cite stand in
//! `h2_model`: a session stands for the history of its calls, and each call is exact as a function of that history.
#![tactic(auto)]

mod arrivals;
mod feeding;
mod judging;
mod owing;
mod receiving;
mod session;

pub use h2_model::{Event, Fed, NoStream, SessionFault};
pub use session::Session;
