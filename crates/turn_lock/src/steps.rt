//! The rule of a table, and what each kind of atomic step tells. These types are for the proofs alone.

use crate::turned::Turned;
use crate::view::{Counted, SeatView};
use atomic_table::{Join, Play, Split, TableRule};
use std::marker::{Brand, PhantomData};

/// What holds between any two steps.
pub struct TurnRule<T> {
    of: PhantomData<T>,
}

impl<T: Turned> TableRule<Option<Counted<T>>, SeatView<T::Call, T::Reply>, ()> for TurnRule<T> {
    ghost use Rattle.turn_lock.specs.Rule.{OneHistory};
    ghost use Rattle.turn_lock.specs.Views.{first_view};

    ghost holds = { λ _. OneHistory T.stands };

    ghost first = { λ _. first_view };
}

/// The turn word becomes 1 where it was 0, and the value leaves its slot; or it was 1.
pub struct TakeTurn<T> {
    of: PhantomData<T>,
}

impl<T: Turned> Play<Option<Counted<T>>, SeatView<T::Call, T::Reply>> for TakeTurn<T> {
    ghost use Rattle.turn_lock.specs.Steps.{turn_taken};

    ghost then = { turn_taken T.stands };
}

/// A value that a step names: its call, or its reply.
pub trait Said<X> {
    ghost use Rattle.std.specs.Prelude.{Option};

    ghost said: { Option X };
}

impl<X> Said<X> for Brand {
    ghost use Rattle.std.specs.Prelude.{None};

    ghost said = { None };
}

/// The count goes up by one: the history has one entry more, of this call and this reply.
pub struct AddEntry<T, C, R> {
    of: PhantomData<(T, C, R)>,
}

impl<T: Turned, C: Said<T::Call>, R: Said<T::Reply>> Play<
    Option<Counted<T>>,
    SeatView<T::Call, T::Reply>,
> for AddEntry<T, C, R> {
    ghost use Rattle.turn_lock.specs.Steps.{entry_added};

    ghost then = { entry_added T.stands C.said R.said };
}

/// The value is back in its slot, and the turn word becomes 0.
pub struct FreeTurn<T> {
    of: PhantomData<T>,
}

impl<T: Turned> Play<Option<Counted<T>>, SeatView<T::Call, T::Reply>> for FreeTurn<T> {
    ghost use Rattle.turn_lock.specs.Steps.{turn_freed};

    ghost then = { turn_freed T.stands };
}

/// The same where no call more can be counted, which the seat notes.
pub struct FreeSpentTurn<T> {
    of: PhantomData<T>,
}

impl<T: Turned> Play<Option<Counted<T>>, SeatView<T::Call, T::Reply>> for FreeSpentTurn<T> {
    ghost use Rattle.turn_lock.specs.Steps.{spent_turn_freed};

    ghost then = { spent_turn_freed T.stands };
}

/// A new seat has a copy of a seat's view.
pub struct SplitView<T> {
    of: PhantomData<T>,
}

impl<T: Turned> Split<SeatView<T::Call, T::Reply>> for SplitView<T> {
    ghost use Rattle.turn_lock.specs.Views.{after_split, split_off};

    ghost left = { after_split };

    ghost right = { split_off };
}

/// A load of the count, by which a new seat learns its number.
pub struct LearnNumber<T> {
    of: PhantomData<T>,
}

impl<T: Turned> Play<Option<Counted<T>>, SeatView<T::Call, T::Reply>> for LearnNumber<T> {
    ghost use Rattle.turn_lock.specs.Steps.{number_learned};

    ghost then = { number_learned T.stands };
}

/// A seat takes in another's view, and the other is spent.
pub struct JoinViews<T> {
    of: PhantomData<T>,
}

impl<T: Turned> Join<SeatView<T::Call, T::Reply>> for JoinViews<T> {
    ghost use Rattle.turn_lock.specs.Views.{joined_view, spent_view};

    ghost both = { joined_view };

    ghost spent = { spent_view };
}

/// A load of the count, by which a seat learns which front is the longer: its own, or the one that it took in.
pub struct CompareFronts<T> {
    of: PhantomData<T>,
}

impl<T: Turned> Play<Option<Counted<T>>, SeatView<T::Call, T::Reply>> for CompareFronts<T> {
    ghost use Rattle.turn_lock.specs.Steps.{fronts_compared};

    ghost then = { fronts_compared T.stands };
}

/// A load of the count, which the seat notes.
pub struct NoteLength<T> {
    of: PhantomData<T>,
}

impl<T: Turned> Play<Option<Counted<T>>, SeatView<T::Call, T::Reply>> for NoteLength<T> {
    ghost use Rattle.turn_lock.specs.Steps.{length_noted};

    ghost then = { length_noted T.stands };
}
