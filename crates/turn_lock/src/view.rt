//! What a table keeps, and what a seat knows of it. But for [`Counted`] no values of these types are made: they are for
//! the proofs alone.

use crate::entry::Entry;
use std::collections::LinkedList;

/// A value beside the number of calls that it has had.
#[derive(Drop)]
pub struct Counted<T> {
    pub value: T,
    pub calls: u64,
}

/// The number of a seat: how many seats of its table were made before it.
pub enum SeatNumber {
    /// It was split off the seat of this number, and doesn't know its own yet.
    SplitFrom(u64),
    Known(u64),
    /// It was joined into another.
    Joined,
}

/// Whether a seat has the turn, and then the whole history.
pub enum Stage<C, R> {
    Idle,
    HasTurn(LinkedList<Entry<C, R>>),
}

/// What was brought in by a join.
pub enum JoinedFront<C, R> {
    /// Nothing that isn't compared yet.
    Compared,
    /// The number of the seat that was joined in, and its front.
    Of(u64, LinkedList<Entry<C, R>>),
}

/// What a seat knows.
pub struct SeatView<C, R> {
    pub number: SeatNumber,
    /// The history that it has seen.
    pub front: LinkedList<Entry<C, R>>,
    pub joined: JoinedFront<C, R>,
    /// The greatest length of the history that it noted.
    pub noted: u64,
    /// How many of its steps found the turn taken.
    pub busy: u64,
    /// How often it was split, and one more where it was split off itself.
    pub splits: u64,
    pub stage: Stage<C, R>,
}
