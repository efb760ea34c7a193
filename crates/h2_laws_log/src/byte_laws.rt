//! Laws of bytes, as contracts of functions that do nothing.
ghost use Rattle.h2_laws_log.specs.Feeding.{EndsAt, EndsAtFault, FailsWithin, HasRead, KeepsInput, KeepsPart, ReadsFrames, ReadsPreface, is_feed};
ghost use Rattle.h2_frames.specs.Frames.{Faulty, Unfinished, Whole, first};
ghost use Rattle.h2_frames.specs.declared.frame.Frame.{Frame};
ghost use Rattle.h2_model.specs.Account.{Account};
ghost use Rattle.h2_model.specs.Calls.{IsFault, IsFed, event_or_nothing, is_stopped, used, used_bytes};
ghost use Rattle.h2_model.specs.History.{Call, Feed, account, answered, arrived, called, preface, violated, with_byte, with_bytes};
ghost use Rattle.h2_model.specs.Log.{violation};
ghost use Rattle.h2_model.specs.declared.answers.Fed.{Fed};
ghost use Rattle.h2_model.specs.declared.answers.SessionFault.TheVariants.{Code};
ghost use Rattle.std.specs.Prelude.{Bool, List, None, Some, [], drop, false, length, slice_index, take, true, ◌++◌, ◌+◌, ◌<◌, ◌∷◌, ◌≡◌, ◌≢◌, ◌≤◌, ℕ};

/// `feed` uses bytes one by one until it stops; those that it used are used again by themselves.
pub fn used_bytes_are_a_front()
    ensures stopped { (bytes : List ℕ) (a : Account) → is_stopped a ≡ true → used bytes a ≡ 0 }
    ensures byte { (b : ℕ) (bytes : List ℕ) (a : Account) → is_stopped a ≡ false →
        used (b ∷ bytes) a ≡ 1 + used bytes (with_byte b a) }
    ensures pieces { (xs ys : List ℕ) (a : Account) → used xs a ≡ length xs →
        used (xs ++ ys) a ≡ length xs + used ys (with_bytes xs a) }
    ensures count { (bytes : List ℕ) (a : Account) → length (used_bytes bytes a) ≡ used bytes a }
    ensures again { (bytes : List ℕ) (a : Account) → used (used_bytes bytes a) a ≡ length (used_bytes bytes a) }
{}

/// While no frame is whole all bytes are used and kept: RFC 9113 section 4.1.
pub fn part_of_frame_waits()
    ensures after { (bytes : List ℕ) (a : Account) → ReadsFrames a → first (a.rest ++ bytes) ≡ Unfinished →
        with_bytes bytes a ≡ record a { rest = a.rest ++ bytes } }
    ensures uses { (bytes : List ℕ) (a : Account) → ReadsFrames a → first (a.rest ++ bytes) ≡ Unfinished →
        used bytes a ≡ length bytes }
{}

/// A frame that ends with the n-th of the bytes comes in at it, and the bytes behind are read from there.
pub fn frame_comes()
    ensures after { (n : ℕ) (f : Frame) (bytes : List ℕ) (a : Account) → ReadsFrames a →
        first (a.rest ++ bytes) ≡ Whole f (length a.rest + n) → 0 < n → n ≤ length bytes →
        with_bytes (take n bytes) a ≡ arrived f (record a { rest = [] }) }
    ensures uses { (n : ℕ) (f : Frame) (bytes : List ℕ) (a : Account) → ReadsFrames a →
        first (a.rest ++ bytes) ≡ Whole f (length a.rest + n) → 0 < n → n ≤ length bytes →
        used bytes a ≡ n + used (drop n bytes) (arrived f (record a { rest = [] })) }
{}

/// A faulty frame (RFC 9113 section 4.2) is a connection error at one of the bytes, and none behind it is used.
pub fn frame_fails()
    ensures { (bytes : List ℕ) (code : ℕ) (a : Account) → ReadsFrames a → first a.rest ≡ Unfinished →
        first (a.rest ++ bytes) ≡ Faulty code → FailsWithin code bytes a }
{}

/// A server's first bytes are the client's preface (RFC 9113 section 3.4); the first that differs is a PROTOCOL_ERROR.
pub fn preface_comes()
    ensures part { (k b : ℕ) (a : Account) → ReadsPreface k a → b ≡ slice_index preface k → k + 1 < 24 →
        with_byte b a ≡ record a { rest = take (k + 1) preface } }
    ensures whole { (k b : ℕ) (a : Account) → ReadsPreface k a → b ≡ slice_index preface k → k + 1 ≡ 24 →
        with_byte b a ≡ record a { greeted = true; rest = [] } }
    ensures other { (k b : ℕ) (a : Account) → ReadsPreface k a → b ≢ slice_index preface k →
        with_byte b a ≡ violated 1 a }
    ensures uses { (k b : ℕ) (bytes : List ℕ) (a : Account) → ReadsPreface k a →
        used (b ∷ bytes) a ≡ 1 + used bytes (with_byte b a) }
{}

/// How a loop over bytes goes: nothing is read at first, then bytes of the preface and whole frames.
pub fn bytes_are_read()
    ensures starts { (bytes : List ℕ) (a : Account) → HasRead a bytes 0 a }
    ensures frame { (a : Account) (bytes : List ℕ) (n : ℕ) (b : Account) → HasRead a bytes n b →
        (m : ℕ) (f : Frame) → ReadsFrames b → first (b.rest ++ drop n bytes) ≡ Whole f (length b.rest + m) →
        0 < m → m ≤ length (drop n bytes) → HasRead a bytes (n + m) (arrived f (record b { rest = [] })) }
    ensures byte { (a : Account) (bytes : List ℕ) (n : ℕ) (b : Account) → HasRead a bytes n b →
        n < length bytes → is_stopped b ≡ false → HasRead a bytes (n + 1) (with_byte (slice_index bytes n) b) }
    ensures preface { (a : Account) (bytes : List ℕ) (n : ℕ) (b : Account) → HasRead a bytes n b →
        (k : ℕ) → ReadsPreface k b → n < length bytes → slice_index bytes n ≡ slice_index preface k → k + 1 < 24 →
        HasRead a bytes (n + 1) (record b { rest = take (k + 1) preface }) }
    ensures greeted { (a : Account) (bytes : List ℕ) (n : ℕ) (b : Account) → HasRead a bytes n b →
        (k : ℕ) → ReadsPreface k b → n < length bytes → slice_index bytes n ≡ slice_index preface k → k + 1 ≡ 24 →
        HasRead a bytes (n + 1) (record b { greeted = true; rest = [] }) }
{}

/// Where a loop over bytes ends: where something was brought, at the last byte, or at a violation.
pub fn reading_ends()
    ensures stopped { (a : Account) (bytes : List ℕ) (n : ℕ) (b : Account) → HasRead a bytes n b → is_stopped b ≡ true →
        EndsAt a bytes n b }
    ensures all { (a : Account) (bytes : List ℕ) (n : ℕ) (b : Account) → HasRead a bytes n b → n ≡ length bytes →
        EndsAt a bytes n b }
    ensures more { (a : Account) (bytes : List ℕ) (n : ℕ) (b : Account) → HasRead a bytes n b → ReadsFrames b →
        first (b.rest ++ drop n bytes) ≡ Unfinished →
        EndsAt a bytes (length bytes) (record b { rest = b.rest ++ drop n bytes }) }
    ensures other { (a : Account) (bytes : List ℕ) (n : ℕ) (b : Account) → HasRead a bytes n b →
        (k : ℕ) → ReadsPreface k b → n < length bytes → slice_index bytes n ≢ slice_index preface k →
        EndsAt a bytes (n + 1) (violated 1 b) }
    ensures fault { (a : Account) (bytes : List ℕ) (n : ℕ) (b : Account) → HasRead a bytes n b →
        (code : ℕ) → ReadsFrames b → first b.rest ≡ Unfinished → first (b.rest ++ drop n bytes) ≡ Faulty code →
        EndsAtFault a bytes code b }
{}

/// What `feed` answers where reading ended, and what it leaves.
pub fn reading_is_answered()
    ensures fed { (a : Account) (bytes : List ℕ) (n : ℕ) (b : Account) → EndsAt a bytes n b →
        (f : Fed) → f.used ≡ n → f.event ≡ event_or_nothing b.unreported → violation b.log ≡ None → IsFed a bytes f }
    ensures refused { (a : Account) (bytes : List ℕ) (n : ℕ) (b : Account) → EndsAt a bytes n b →
        (code : ℕ) → violation b.log ≡ Some code → IsFault a bytes (Code code) }
    ensures fault { (a : Account) (bytes : List ℕ) (code : ℕ) (b : Account) → EndsAtFault a bytes code b →
        IsFault a bytes (Code code) }
    ensures left { (a : Account) (bytes : List ℕ) (n : ℕ) (b : Account) → EndsAt a bytes n b →
        called (Feed (used_bytes bytes a)) a ≡ answered b }
{}

/// What a session keeps of its input is never a whole frame or the whole preface.
pub fn parts_are_kept()
    ensures byte { (b : ℕ) (a : Account) → KeepsPart a → KeepsPart (with_byte b a) }
    ensures call { (call : Call) (a : Account) → KeepsPart a → KeepsPart (called call a) }
    ensures history { (client : Bool) (h : List Call) → KeepsPart (account client h) }
{}

/// What else happens leaves the input alone, and where nothing stops a session it reads on.
pub fn reading_goes_on()
    ensures frame { (f : Frame) (a : Account) → KeepsInput a (arrived f a) }
    ensures call { (call : Call) (a : Account) → is_feed call ≡ false → KeepsInput a (called call a) }
    ensures frames { (a : Account) → a.greeted ≡ true → is_stopped a ≡ false → ReadsFrames a }
    ensures preface { (a : Account) → KeepsPart a → a.greeted ≡ false → is_stopped a ≡ false →
        ReadsPreface (length a.rest) a }
{}
