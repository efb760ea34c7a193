//! A table and its seats.

ghost use Rattle.std.specs.Prelude.{◌≡◌};
ghost use Rattle.turn_lock.specs.Views.{IsReady, IsReady-prop};

use crate::steps::{
    AddEntry, CompareFronts, FreeSpentTurn, FreeTurn, JoinViews, LearnNumber, NoteLength, Said,
    SplitView, TakeTurn, TurnRule,
};
use crate::turned::Turned;
use crate::view::{Counted, SeatView};
use atomic_table::{Refused, Seat, Table};
use std::alloc::{AllocFailed, Global};
use std::marker::Brand;

/// The word that is 1 while a seat has the turn.
const TURN: usize = 0;

/// The word that counts the calls.
const COUNT: usize = 1;

/// A value that threads take turns at.
#[derive(Drop)]
pub struct TurnTable<T: Turned> {
    table: Table<Option<Counted<T>>, SeatView<T::Call, T::Reply>, (), TurnRule<T>, Global>,
    ghost sized: { (table.shared.table_id.words ≡ 2) × (table.shared.table_id.slots ≡ 1) },
}

/// A thread's right to call. Contracts see what it has seen of the history, its front, for which some value stands.
#[derive(Drop)]
pub struct TurnSeat<T: Turned> {
    seat: Seat<Option<Counted<T>>, SeatView<T::Call, T::Reply>>,
    ghost ready: { IsReady seat.me } by { IsReady-prop seat.me },
    ghost stood: { ∥ ((value : T) × T.stands value seat.me.0.front) ∥₁ },
}

/// What becomes of a call.
#[derive(Drop)]
pub enum Attempt<T: Turned> {
    Done(T::Reply),
    /// Another seat had the turn.
    Busy(T::Call),
    /// 2^64 - 1 calls were counted before.
    Spent(T::Call),
}

impl<T: Turned> TurnTable<T> {
    ghost use Rattle.std.specs.Prelude.{◌+◌, ◌-◌, ◌^◌, ◌<◌, ◌≤◌, ℕ, List, [], ◌∷◌, ◌++◌, length, max, All, IfOk, IfErr, Some};
    ghost use Rattle.turn_lock.specs.declared.entry.Entry.{Entry};
    ghost use Rattle.turn_lock.specs.declared.view.SeatNumber.TheVariants.{Known};
    ghost use Rattle.turn_lock.specs.declared.view.Stage.TheVariants.{HasTurn};
    ghost use Rattle.turn_lock.specs.History.{entry, IsEarlier, IsLonger};
    ghost use Rattle.turn_lock.specs.Views.{with_entry};
    ghost use Rattle.turn_lock.specs.Seats.{IsSeatOf, IsSameSeat, Answers, front_of, noted_of, number_of, busy_of, splits_of};

    /// A table of a value, and its first seat. Out of memory gives the value back.
    pub fn new(alloc: Global, value: T) -> Result<(TurnTable<T>, TurnSeat<T>), T>
        requires { T.stands value [] }
        ensures seat { IfOk result (λ r. IsSeatOf r.0 r.1 × (front_of r.1 ≡ []) × (noted_of r.1 ≡ 0)) }
        ensures first { IfOk result (λ r. (number_of r.1 ≡ 0) × (busy_of r.1 ≡ 0) × (splits_of r.1 ≡ 0)) }
        ensures err { IfErr result (λ v. v ≡ value) }
    {
        let mut slots = Vec::new(alloc);
        if let Err(AllocFailed { value: slot }) = slots.push(Some(Counted { value, calls: 0 })) {
            return Err(slot.unwrap().value);
        }
        match Table::new(alloc, &[0, 0], slots, &()) {
            Ok((table, seat)) => Ok((TurnTable { table }, TurnSeat { seat })),
            Err(Refused { mut slots }) => Err(slots.pop().unwrap().unwrap().value),
        }
    }

    /// Makes a call, unless another seat has the turn or no call more can be counted: then it gives the call back. It
    /// waits for nobody, and takes no memory but what the call takes.
    pub fn attempt(&self, seat: &mut TurnSeat<T>, call: T::Call) -> Attempt<T>
        requires { IsSeatOf self.now seat.old }
        ensures seat { IsSeatOf self.now seat.new × IsSameSeat seat.old seat.new }
        ensures answer { Answers call seat.old seat.new result }
    {
        let shared = &self.table.shared;
        let found = shared.compare_exchange::<TakeTurn<T>>(&mut seat.seat, TURN, 0, 1);
        if found != 0 {
            return Attempt::Busy(call);
        }
        let slot = shared.exchange(&mut seat.seat, 0, None);
        let mut counted = slot.unwrap();
        if counted.calls == u64::MAX {
            shared.exchange(&mut seat.seat, 0, Some(counted));
            shared.store::<FreeSpentTurn<T>>(&mut seat.seat, TURN, 0);
            return Attempt::Spent(call);
        }
        let reply = self.act::<Brand>(&mut seat.seat, &mut counted, call);
        shared.exchange(&mut seat.seat, 0, Some(counted));
        shared.store::<FreeTurn<T>>(&mut seat.seat, TURN, 0);
        Attempt::Done(reply)
    }

    // Makes the call on the value that was taken out of its slot, and counts it.
    fn act<C: Said<T::Call>>(
        &self,
        seat: &mut Seat<Option<Counted<T>>, SeatView<T::Call, T::Reply>>,
        counted: &mut Counted<T>,
        call: T::Call,
    ) -> T::Reply
        requires said { C.said ≡ Some call }
        requires table { seat.old.table_id ≡ self.now.table.shared.table_id }
        requires turn { (history : List (Entry T.Call T.Reply)) × (n : ℕ) × (seat.old.me.0.stage ≡ HasTurn history)
            × (seat.old.me.0.number ≡ Known n) × T.stands counted.old.value history
            × (counted.old.calls ≡ length history) × (length history < 2 ^ 64 - 1) }
        ensures table { (seat.new.table_id ≡ seat.old.table_id) × (seat.new.id ≡ seat.old.id)
            × (seat.new.me.1 ≡ seat.old.me.1) }
        ensures value { (history : List (Entry T.Call T.Reply)) (n : ℕ) → seat.old.me.0.stage ≡ HasTurn history
            → seat.old.me.0.number ≡ Known n → T.stands counted.new.value (history ++ entry n call result ∷ []) }
        ensures view { (history : List (Entry T.Call T.Reply)) (n : ℕ) → seat.old.me.0.stage ≡ HasTurn history
            → seat.old.me.0.number ≡ Known n
            → seat.new.me.0 ≡ with_entry (history ++ entry n call result ∷ []) seat.old.me.0 }
        ensures calls { counted.new.calls ≡ counted.old.calls + 1 }
    {
        let reply = counted.value.act(call);
        self.count::<C, Brand>(seat, &reply);
        counted.calls += 1;
        reply
    }

    fn count<C: Said<T::Call>, R: Said<T::Reply>>(
        &self,
        seat: &mut Seat<Option<Counted<T>>, SeatView<T::Call, T::Reply>>,
        reply: &T::Reply,
    )
        requires said { (call : T.Call) × (C.said ≡ Some call) }
        requires reply { R.said ≡ Some reply.now }
        requires table { seat.old.table_id ≡ self.now.table.shared.table_id }
        requires turn { (history : List (Entry T.Call T.Reply)) × (n : ℕ) × (seat.old.me.0.stage ≡ HasTurn history)
            × (seat.old.me.0.number ≡ Known n) × (length history < 2 ^ 64 - 1) }
        ensures table { (seat.new.table_id ≡ seat.old.table_id) × (seat.new.id ≡ seat.old.id)
            × (seat.new.me.1 ≡ seat.old.me.1) }
        ensures view { (history : List (Entry T.Call T.Reply)) (n : ℕ) (call : T.Call) → C.said ≡ Some call
            → seat.old.me.0.stage ≡ HasTurn history → seat.old.me.0.number ≡ Known n
            → seat.new.me.0 ≡ with_entry (history ++ entry n call reply.now ∷ []) seat.old.me.0 }
    {
        self.table
            .shared
            .fetch_add::<AddEntry<T, C, R>>(seat, COUNT, 1);
    }

    /// A new seat for another thread, which has seen what this one has. It takes no memory.
    pub fn split(&self, seat: &mut TurnSeat<T>) -> TurnSeat<T>
        requires { IsSeatOf self.now seat.old }
        ensures seat { IsSeatOf self.now seat.new × (front_of seat.new ≡ front_of seat.old)
            × (noted_of seat.new ≡ noted_of seat.old) × (number_of seat.new ≡ number_of seat.old)
            × (busy_of seat.new ≡ busy_of seat.old) × (splits_of seat.new ≡ splits_of seat.old + 1) }
        ensures new { IsSeatOf self.now result × (front_of result ≡ front_of seat.old)
            × (noted_of result ≡ noted_of seat.old) × (number_of seat.old < number_of result)
            × All (IsEarlier (number_of result)) (front_of result) }
    {
        let shared = &self.table.shared;
        let mut new = shared.split_seat::<SplitView<T>>(&mut seat.seat);
        shared.load::<LearnNumber<T>>(&mut new, COUNT);
        TurnSeat { seat: new }
    }

    /// Takes in another seat: the longer front, which the other begins, and the greater noted number.
    pub fn join(&self, seat: &mut TurnSeat<T>, other: TurnSeat<T>)
        requires seat { IsSeatOf self.now seat.old }
        requires other { IsSeatOf self.now other }
        ensures seat { IsSeatOf self.now seat.new × IsSameSeat seat.old seat.new
            × (busy_of seat.new ≡ busy_of seat.old) }
        ensures front { IsLonger (number_of seat.old) (number_of other) (front_of seat.old) (front_of other)
            (front_of seat.new) }
        ensures noted { noted_of seat.new ≡ max (noted_of seat.old) (noted_of other) }
    {
        let shared = &self.table.shared;
        let TurnSeat { seat: other } = other;
        shared.join_seat::<JoinViews<T>>(&mut seat.seat, other);
        shared.load::<CompareFronts<T>>(&mut seat.seat, COUNT);
    }

    /// The length of the history, which the seat keeps in mind.
    pub fn note(&self, seat: &mut TurnSeat<T>) -> u64
        requires { IsSeatOf self.now seat.old }
        ensures seat { IsSeatOf self.now seat.new × IsSameSeat seat.old seat.new
            × (front_of seat.new ≡ front_of seat.old) × (busy_of seat.new ≡ busy_of seat.old) }
        ensures noted { (noted_of seat.new ≡ result) × (noted_of seat.old ≤ result)
            × (length (front_of seat.old) ≤ result) }
    {
        self.table
            .shared
            .load::<NoteLength<T>>(&mut seat.seat, COUNT)
    }
}
