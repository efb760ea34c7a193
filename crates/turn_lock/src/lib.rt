//! A value that threads take turns at, and the one history of the calls on it.
//!
//! ```text
//!             TURN 0 → 1                                            TURN 1 → 0
//!  attempt ──────┬───────▶ the value out ─▶ act ─▶ COUNT + 1 ─▶ back ──────────▶ Done(reply)
//!                │             └─ 2^64 - 1 calls were counted ───────────────────▶ Spent(call)
//!                └─ it was 1 ────────────────────────────────────────────────────▶ Busy(call)
//! ```
//!
//! A thread calls with a seat ([`TurnSeat`]), which knows a beginning of the history, its front. [`TurnTable::split`]
//! makes a seat for another thread, [`TurnTable::join`] makes one of two. What is proved of a [`Turned`] value whose
//! calls are made one after the other holds of what any seat has seen.
#![tactic(auto)]

mod entry;
mod laws;
mod steps;
mod table;
mod turned;
mod view;

pub use entry::Entry;
pub use laws::{own_calls_stand_in_order, value_stands_for_front};
pub use table::{Attempt, TurnSeat, TurnTable};
pub use turned::Turned;
