//! Laws of room, as contracts of functions that do nothing.
ghost use Rattle.h2_laws_log.specs.Steps as arrivals;
ghost use Rattle.h2_laws_log.specs.Sound.{CallsSound};
ghost use Rattle.h2_frames.specs.declared.frame.Frame.{Frame};
ghost use Rattle.h2_frames.specs.declared.frame.Frame.TheVariants as frame;
ghost use Rattle.h2_model.specs.Account.{Account};
ghost use Rattle.h2_model.specs.Calls.{May, Role, is_open_here, kept_streams};
ghost use Rattle.h2_model.specs.History.{Call, Take, answered, arrived, called, handed, headed, noted, start, violated, with_byte, with_bytes};
ghost use Rattle.h2_model.specs.Log.{LogEntry};
ghost use Rattle.h2_model.specs.State.{streams};
ghost use Rattle.h2_model.specs.Streams.{is_live};
ghost use Rattle.h2_model.specs.Valid.{Valid};
ghost use Rattle.h2_laws_log.specs.Rooms.{Counted, closings_held, closings_waiting, credits};
ghost use Rattle.std.specs.Prelude.{Bool, List, [], false, length, true, ◌*◌, ◌+◌, ◌≡◌, ◌≤◌, ℕ};

/// The closing frames that wait, are held or may still be handed over are at most two of each stream that is kept.
pub fn closing_frames_have_room()
    ensures closings { (a : Account) → Valid a → Counted a →
        closings_waiting a.waiting + closings_held a.held + credits (streams a) ≤ 2 * length (kept_streams a) }
    ensures streams { (a : Account) → length (streams a) ≤ length (kept_streams a) }
{}

/// A session begins with no closing frame.
pub fn session_begins_counted()
    ensures { (client : Bool) → Counted (start client) }
{}

/// What comes in adds at most one reset of a stream, which was live or is new.
pub fn frames_keep_the_count()
    ensures noted { (e : LogEntry) (a : Account) → Counted a → Counted (noted e a) }
    ensures arrived { (f : Frame) (a : Account) → arrivals.FramesSound a → Counted a → Counted (arrived f a) }
    ensures violated { (code : ℕ) (a : Account) → Counted a → Counted (violated code a) }
    ensures byte { (b : ℕ) (a : Account) → arrivals.FramesSound a → CallsSound a → Counted a → Counted (with_byte b a) }
    ensures bytes { (bytes : List ℕ) (a : Account) → arrivals.FramesSound a → CallsSound a → Counted a →
        Counted (with_bytes bytes a) }
{}

/// What is handed over adds an end only where there was none, and a reset only of a live stream. A block that goes out
/// moves what was held for it to the queue, and bytes that are taken leave no more.
pub fn handing_keeps_the_count()
    ensures bytes { (id size : ℕ) (bytes : List ℕ) (a : Account) → Counted a →
        Counted (handed (frame.Data id bytes false size) a) }
    ensures finish { (id : ℕ) (a : Account) → Valid a → is_open_here id a ≡ true → Counted a →
        Counted (handed (frame.Data id [] true 0) a) }
    ensures reset { (id code : ℕ) (a : Account) → Valid a → is_live id a.log ≡ true → Counted a →
        Counted (handed (frame.Reset id code) a) }
    ensures head { (id n : ℕ) (block : List ℕ) (last ends : Bool) (a : Account) → Counted a →
        Counted (headed id (frame.Headers n block last ends) a) }
    ensures taken { (n : ℕ) (a : Account) → Counted a → Counted (called (Take n) a) }
    ensures told { (a : Account) → Counted a → Counted (answered a) }
{}

/// Each call that may be made hands over at most one end and one reset of a stream.
pub fn calls_keep_the_count()
    ensures { (r : Role) (call : Call) (a : Account) → arrivals.FramesSound a → CallsSound a → May r call a →
        Counted a →
        Counted (called call a) }
{}
