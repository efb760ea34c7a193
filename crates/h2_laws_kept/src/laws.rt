//! The laws, as contracts of functions that do nothing.
ghost use Rattle.ext_msgs.specs.declared.lists.Field.{Field};
ghost use Rattle.h2_laws_log.specs.Calling.{heading, taking};
ghost use Rattle.h2_frames.specs.declared.frame.Frame.TheVariants as frame;
ghost use Rattle.h2_model.specs.Account.{Account};
ghost use Rattle.h2_model.specs.Calls.{MayHead, can_open, control, is_open_here, is_window, kept_streams, positive_part, sendable, unsent_bytes, waits};
ghost use Rattle.h2_model.specs.History.{Finish, Head, Open, Reset, Send, Take, called, frame_in, is_of, next_number, start};
ghost use Rattle.h2_model.specs.Log.{is_empty, stream_of};
ghost use Rattle.h2_model.specs.Moves.{handing, opening, queueing, sending};
ghost use Rattle.h2_model.specs.Queue.{bytes_of, control_bytes, flow, is_data, unsent};
ghost use Rattle.h2_model.specs.State.{stream_of_log, found};
ghost use Rattle.h2_model.specs.Streams.{is_live};
ghost use Rattle.h2_model.specs.Windows.{held_data, stream_window};
ghost use Rattle.h2_model.specs.declared.stream.Stream.{Stream};
ghost use Rattle.h2_laws_kept.specs.Kept.{IsBeside, IsNew, IsSame, Kept, lacks_head};
ghost use Rattle.h2_laws_kept.specs.Rooms.{HasSpare, KeepsCapacity};
ghost use Rattle.h2_laws_kept.specs.StandsFor.{Holds};
ghost use Rattle.std.specs.List.{list_any};
ghost use Rattle.std.specs.Prelude.{Bool, List, None, Some, [], false, if◌then◌else◌, is_some, length, min, nat_lt, not, pos, sum_by, true, ◌&&◌, ◌+ℤ◌, ◌+◌, ◌<◌, ◌==◌, ◌||◌, ◌≡◌, ℕ};

/// A session begins as its account does.
pub fn session_begins_held()
    ensures { (client : Bool) (k : Kept) → IsNew client k → Holds k (start client) }
{}

/// Each call of the owner leaves what the account after it says. Ends, resets and streams of a client take no memory;
/// bytes and blocks need room to spare.
pub fn calls_are_held()
    ensures open { (k l : Kept) (a : Account) → Holds k a → a.client ≡ true → length (kept_streams a) < k.streams →
        IsBeside k l →
        l.headless ≡ k.headless → l.numbers ≡ record k.numbers { next = k.numbers.next + 2 } →
        l.state ≡ opening k.numbers.next k.state → KeepsCapacity k l → Holds l (called Open a) }
    ensures head { (k l : Kept) (id : ℕ) (fields : List Field) (block : List ℕ) (last : Bool) (a : Account) →
        Holds k a →
        MayHead id a → k.state.violation ≡ None → HasSpare (length k.state.held + 1) k → KeepsCapacity k l →
        IsBeside k l →
        l.numbers ≡ k.numbers → l.headless ≡ (if lacks_head id k then id + 2 else k.headless) →
        l.state ≡ (if lacks_head id k then heading id (frame.Headers id block last true) k.state
        else queueing (frame.Headers id block last true) (sending (frame.Headers id block last true) k.state)) →
        Holds l (called (Head id fields block last) a) }
    ensures send { (k l : Kept) (id : ℕ) (bytes : List ℕ) (a : Account) → Holds k a → is_open_here id a ≡ true →
        is_empty bytes ≡ false → k.state.violation ≡ None → HasSpare 1 k → IsSame k l → KeepsCapacity k l →
        l.state ≡ handing (lacks_head id k) (frame.Data id bytes false (length bytes)) k.state →
        Holds l (called (Send id bytes) a) }
    ensures finish { (k l : Kept) (id : ℕ) (a : Account) → Holds k a → is_open_here id a ≡ true → IsSame k l →
        KeepsCapacity k l →
        l.state ≡ (if is_some k.state.violation then k.state
        else handing (lacks_head id k) (frame.Data id [] true 0) k.state) →
        Holds l (called (Finish id) a) }
    ensures reset { (k l : Kept) (id code : ℕ) (a : Account) → Holds k a → is_live id a.log ≡ true → IsSame k l →
        KeepsCapacity k l →
        l.state ≡ (if is_some k.state.violation then k.state
        else handing (lacks_head id k) (frame.Reset id code) k.state) →
        Holds l (called (Reset id code) a) }
    ensures take { (k l : Kept) (n : ℕ) (a : Account) → Holds k a → IsSame k l → KeepsCapacity k l →
        l.state ≡ taking n k.state → Holds l (called (Take n) a) }
{}

/// What a call that takes no memory needs is there: a stream that is live is found, with room for a frame of it, and a
/// client that may keep one more stream has room for it.
pub fn calls_have_room()
    ensures found { (k : Kept) (a : Account) → Holds k a → (id : ℕ) → is_live id a.log ≡ true →
        found id k.state.streams ≡ Some (stream_of_log id a) }
    ensures queue { (k : Kept) (a : Account) → Holds k a → (id : ℕ) → is_live id a.log ≡ true → 0 < k.room }
    ensures held { (k : Kept) (a : Account) → Holds k a → (id : ℕ) → is_live id a.log ≡ true → k.client ≡ true →
        0 < k.held_room }
    ensures table { (k : Kept) (a : Account) → Holds k a → a.client ≡ true → length (kept_streams a) < k.streams →
        0 < k.table_room }
{}

/// What answers read of the parts is what the account says.
pub fn answers_are_kept()
    ensures open { (k : Kept) (a : Account) → Holds k a → a.client ≡ true →
        can_open a ≡ (nat_lt (length k.state.streams) k.state.most && nat_lt k.numbers.next 2147483648
        && not k.state.goaway) }
    ensures next { (k : Kept) (a : Account) → Holds k a → a.client ≡ true → k.numbers.next ≡ next_number a }
    ensures window { (k : Kept) (a : Account) → Holds k a → (id : ℕ) → is_live id a.log ≡ true → (t : Stream) →
        found id k.state.streams ≡ Some t → stream_window id a ≡ pos k.state.initial +ℤ t.credit }
    ensures sendable { (k : Kept) (a : Account) → Holds k a → (id n : ℕ) → is_live id a.log ≡ true → (t : Stream) →
        found id k.state.streams ≡ Some t → sendable id n a
        ≡ min (min n 16384) (min (positive_part k.state.window) (positive_part (pos k.state.initial +ℤ t.credit))) }
    ensures control { (k : Kept) (a : Account) → Holds k a → control a ≡ control_bytes k.state.waiting
        + sum_by (λ e. if is_data (frame_in e) then 0 else length (bytes_of (frame_in e))) k.state.held }
    ensures unsent { (k : Kept) (a : Account) → Holds k a → (id : ℕ) →
        unsent_bytes id a ≡ (if id == 0 then 0 else unsent id k.state.waiting + held_data id k.state.held) }
    ensures waits { (k : Kept) (a : Account) → Holds k a → (id : ℕ) → waits id a
        ≡ (not (id == 0) && (list_any (λ w. (stream_of w.frame == id) && not (is_window w.frame)) k.state.waiting
        || list_any (is_of id) k.state.held)) }
    ensures flow { (k : Kept) (a : Account) → Holds k a → flow a.waiting ≡ flow k.state.waiting }
{}
