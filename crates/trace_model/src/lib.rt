//! What the transcript of a message trace is: definitions and laws, no code.
//!
//! A trace is played line by line. A line brings an exchange bytes, an end, an answer or the time (`specs/Links`); then
//! rounds follow until one does nothing (`specs/Rounds`); what the calls of these rounds gave are the lines of the
//! transcript (`specs/Lines`). Each call answers as `filter_model` says that it may. `specs/Places` has all exchanges
//! of a trace, and `specs/Verdicts` which lines may stand where.
#![tactic(auto)]

mod laws;

pub use laws::{at_rest, each_is_right, shape_follows};
