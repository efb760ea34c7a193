//! Plays message traces on exchanges: a line in, and the lines of the transcript that it brings out.
//!
//! What a transcript is says `trace_model`; each exchange stands for the history of its calls, by the contracts of
//! `exchange`. `specs/Ties` joins the two.
#![tactic(auto)]

mod brought;
mod draining;
mod event;
mod feeding;
mod lines;
mod link;
mod opened;
mod player;
mod stage;
mod waiting;

pub use player::Player;
pub use stage::{Met, Stage, step};
