//! What an HTTP/2 session stands for: how its parts hold what the account of its calls says, call by call.
//!
//! A session keeps states and counters where the definitions have a log and sums over it. The laws say that each call
//! leaves the parts as the account after it says.
#![tactic(auto)]

mod laws;

pub use laws::{answers_are_kept, calls_are_held, calls_have_room, session_begins_held};
