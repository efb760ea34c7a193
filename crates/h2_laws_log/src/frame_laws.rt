//! Laws of frames that come in, as contracts of functions that do nothing.
ghost use Rattle.h2_laws_log.specs.Steps.{FramesSound, opening_for, resets_above, with_frame};
ghost use Rattle.h2_frames.specs.declared.frame.Frame.{Frame};
ghost use Rattle.h2_model.specs.Account.{Account};
ghost use Rattle.h2_model.specs.Duties.{reset_by_goaway};
ghost use Rattle.h2_model.specs.History.{arrived, noted, with_opening};
ghost use Rattle.h2_model.specs.Log.{Opened};
ghost use Rattle.h2_model.specs.Moves.{opening};
ghost use Rattle.h2_model.specs.State.{live, seen};
ghost use Rattle.h2_model.specs.Streams.{greatest, is_opened, live_streams, opened};
ghost use Rattle.h2_model.specs.Valid.{Valid};
ghost use Rattle.h2_model.specs.Violations.{violation_of};
ghost use Rattle.h2_model.specs.declared.answers.Event.{Event};
ghost use Rattle.std.specs.Prelude.{Bool, List, None, find, length, ◌<◌, ◌==◌, ◌≡◌, ℕ};

/// A frame comes in that is no connection error (RFC 9113 section 5.4.1): HEADERS may open a stream, the frame changes
/// windows, settings and streams, a whole block is decoded, what the frame brings is told, and what is owed for it
/// waits.
pub fn frame_comes_in()
    ensures state { (f : Frame) (a : Account) → FramesSound a → violation_of a f ≡ None →
        seen (arrived f a) ≡ with_frame f a }
    ensures sound { (f : Frame) (a : Account) → FramesSound a → violation_of a f ≡ None → FramesSound (arrived f a) }
{}

/// HEADERS come in that are no connection error: they open a stream that isn't known, and reset it where 256 are live
/// (RFC 9113 section 5.1.2). Other frames open none.
pub fn headers_open_a_stream()
    ensures state { (f : Frame) (a : Account) → FramesSound a → violation_of a f ≡ None →
        seen (with_opening f a) ≡ opening_for (λ id. is_opened id a.log) f (seen a) }
    ensures valid { (f : Frame) (a : Account) → FramesSound a → violation_of a f ≡ None → Valid (with_opening f a) }
{}

/// A stream is opened whose number is above all others (RFC 9113 section 5.1.1): it is the last of the live streams.
pub fn stream_opens()
    ensures state { (n : ℕ) (a : Account) → FramesSound a → greatest (opened a.log) < n →
        seen (noted (Opened n) a) ≡ opening n (seen a) }
    ensures sound { (n : ℕ) (a : Account) → FramesSound a → greatest (opened a.log) < n →
        FramesSound (noted (Opened n) a) }
{}

/// Bytes that are no whole frame, the preface and events that were answered change nothing else.
pub fn what_is_no_entry_is_kept_apart()
    ensures state { (greeted : Bool) (rest : List ℕ) (us : List Event) (a : Account) →
        seen (record a { greeted = greeted; rest = rest; unreported = us }) ≡ record (seen a) { unreported = us } }
    ensures sound { (greeted : Bool) (rest : List ℕ) (us : List Event) (a : Account) → FramesSound a →
        FramesSound (record a { greeted = greeted; rest = rest; unreported = us }) }
{}

/// What answers read of the live streams: one by its number, how many there are, and which a GOAWAY resets.
pub fn live_streams_are_kept()
    ensures found { (id : ℕ) (a : Account) → find (λ s. s.id == id) (seen a).streams ≡ live id a }
    ensures count { (a : Account) → length (live_streams a.log) ≡ length (seen a).streams }
    ensures goaway { (a : Account) (last : ℕ) → reset_by_goaway a last ≡ resets_above a.client last (seen a) }
{}
