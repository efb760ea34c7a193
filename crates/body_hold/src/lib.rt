//! The bytes of a body on their way through the filter: those at hand, those lent with an ask, and those that go out.
#![tactic(auto)]

mod hold;
mod moves;

pub use hold::{Change, Hold};
