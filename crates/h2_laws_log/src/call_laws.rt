//! Laws of calls, as contracts of functions that do nothing.
ghost use Rattle.ext_msgs.specs.declared.lists.Field.{Field};
ghost use Rattle.h2_laws_log.specs.Becomes.{Becomes};
ghost use Rattle.h2_laws_log.specs.Calling.{failing, heading, starting, taking};
ghost use Rattle.h2_laws_log.specs.Sound.{CallsSound, has_left};
ghost use Rattle.h2_frames.specs.declared.frame.Frame.TheVariants as frame;
ghost use Rattle.h2_model.specs.Account.{Account, is_headless};
ghost use Rattle.h2_model.specs.Calls.{MayHead};
ghost use Rattle.h2_model.specs.History.{Finish, Head, Open, Reset, Send, Take, answered, called, is_violated, last_of_peer, start, violated, with_byte};
ghost use Rattle.h2_model.specs.Log.{is_empty, violation};
ghost use Rattle.h2_model.specs.Moves.{handing};
ghost use Rattle.h2_model.specs.Queue.{Waiting, behind, data_in, queued, whole_within};
ghost use Rattle.h2_model.specs.State.{seen};
ghost use Rattle.h2_model.specs.Streams.{is_live, opened};
ghost use Rattle.h2_model.specs.Valid.{Valid};
ghost use Rattle.std.specs.Prelude.{All, Bool, List, None, [], drop, false, if◌then◌else◌, length, sum_by, true, ◌+◌, ◌==◌, ◌≡◌, ℕ};

/// A session begins with its SETTINGS, and without a stream: RFC 9113 section 3.4.
pub fn session_begins()
    ensures { (client : Bool) → Becomes (start client) [] (λ k. false) (starting client) }
{}

/// `send`, `finish` and `reset` hand a frame of a live stream over: it waits in the queue, or, while the stream of a
/// client lacks its head, is held. After a violation they change nothing.
pub fn frame_is_handed_over()
    ensures send { (id : ℕ) (bytes : List ℕ) (a : Account) → Valid a → CallsSound a → is_live id a.log ≡ true →
        Becomes (called (Send id bytes) a) (opened a.log) (is_headless a)
        (if is_empty bytes then seen a else if is_violated a then seen a
        else handing (is_headless a id) (frame.Data id bytes false (length bytes)) (seen a)) }
    ensures finish { (id : ℕ) (a : Account) → Valid a → CallsSound a → is_live id a.log ≡ true →
        Becomes (called (Finish id) a) (opened a.log) (is_headless a)
        (if is_violated a then seen a else handing (is_headless a id) (frame.Data id [] true 0) (seen a)) }
    ensures reset { (id code : ℕ) (a : Account) → Valid a → CallsSound a → is_live id a.log ≡ true →
        Becomes (called (Reset id code) a) (opened a.log) (is_headless a)
        (if is_violated a then seen a else handing (is_headless a id) (frame.Reset id code) (seen a)) }
{}

/// `head` hands a block over, and what was held for its stream goes behind it.
pub fn block_goes_out()
    ensures { (id : ℕ) (fields : List Field) (block : List ℕ) (last : Bool) (a : Account) → Valid a → CallsSound a →
        MayHead id a →
        Becomes (called (Head id fields block last) a) (opened a.log)
        (λ k. if is_violated a then is_headless a k else if id == k then false else is_headless a k)
        (if is_violated a then seen a else heading id (frame.Headers id block last true) (seen a)) }
{}

/// `take` gives the frames of which the last byte was taken; DATA that was given and that waits is the same together.
pub fn bytes_are_taken()
    ensures kept { (n : ℕ) (a : Account) → Valid a → CallsSound a →
        Becomes (called (Take n) a) (opened a.log) (is_headless a) (taking n (seen a)) }
    ensures data_kept { (id n : ℕ) (queue : List Waiting) → All (λ w. has_left w ≡ true) queue →
        sum_by (data_in id) (whole_within n queue) + queued id (behind n queue) ≡ queued id queue }
{}

/// A connection error drops what is held and DATA that wasn't begun, and GOAWAY waits last: RFC 9113 section 5.4.1.
pub fn connection_fails()
    ensures { (code : ℕ) (a : Account) → Valid a → CallsSound a → violation a.log ≡ None →
        Becomes (violated code a) (opened a.log) (is_headless a) (failing (last_of_peer a) code (seen a)) }
{}

/// What `feed` answers isn't waiting any more.
pub fn event_is_told()
    ensures { (a : Account) → Valid a → CallsSound a →
        Becomes (answered a) (opened a.log) (is_headless a)
        (record (seen a) { unreported = drop 1 (seen a).unreported }) }
{}

/// What the laws above need beside `Valid` stays, whatever comes in and is opened.
pub fn arrivals_stay_sound()
    ensures byte { (b : ℕ) (a : Account) → Valid a → CallsSound a → CallsSound (with_byte b a) }
    ensures opened { (a : Account) → CallsSound a → CallsSound (called Open a) }
{}
