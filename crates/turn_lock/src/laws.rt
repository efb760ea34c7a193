//! What holds of fronts.

ghost use Rattle.std.specs.Prelude.{◌≡◌, ℕ, List, [], ◌∷◌, ◌++◌, All};
ghost use Rattle.turn_lock.specs.declared.entry.Entry.{Entry};
ghost use Rattle.turn_lock.specs.History.{GoesOnWithout, IsOfOther, Made, entry};
ghost use Rattle.turn_lock.specs.Seats.{front_of};

use crate::table::TurnSeat;
use crate::turned::Turned;

/// Some value stands for all that a seat has seen: the calls of all seats, made one after the other, answered so.
pub fn value_stands_for_front<T: Turned>(seat: &TurnSeat<T>)
    ensures { ∥ ((value : T) × T.stands value (front_of seat.now)) ∥₁ }
{}

/// Of a seat's own calls a front has just those that were done, each once and in their order: none come with a front
/// that goes on without them, one comes with the answer `Done`, and what came one after the other is joined.
pub fn own_calls_stand_in_order<T: Turned>()
    ensures none { (seat : ℕ) (before after : List (Entry T.Call T.Reply)) → GoesOnWithout seat before after
        → Made seat before after [] }
    ensures one { (seat : ℕ) (before others : List (Entry T.Call T.Reply)) (call : T.Call) (reply : T.Reply)
        → All (IsOfOther seat) others
        → Made seat before (before ++ others ++ entry seat call reply ∷ []) (entry seat call reply ∷ []) }
    ensures more { (seat : ℕ) (first second third own further : List (Entry T.Call T.Reply))
        → Made seat first second own → Made seat second third further → Made seat first third (own ++ further) }
{}
