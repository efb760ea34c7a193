//! Laws of the definitions, as contracts of functions that do nothing.
ghost use Rattle.h2_model.specs.Account.{Account};
ghost use Rattle.h2_model.specs.History.{Call, Take, account, called, with_bytes};
ghost use Rattle.h2_model.specs.Log.{Log, total, violation};
ghost use Rattle.h2_model.specs.Queue.{flow};
ghost use Rattle.h2_model.specs.Settings.{initial_window};
ghost use Rattle.h2_model.specs.Streams.{is_live, is_live_state, state_of};
ghost use Rattle.h2_model.specs.Windows.{connection_window, data_sent, increment, stream_window};
ghost use Rattle.std.specs.Prelude.{Bool, List, None, Some, [], drop, pos, ◌++◌, ◌+◌, ◌-ℤ◌, ◌∷◌, ◌≡◌, ℕ};

/// Every call only adds to the log.
pub fn log_only_grows()
    ensures { (call : Call) (a : Account) → (more : Log) × ((called call a).log ≡ more ++ a.log) }
{}

/// The empty log holds no violation, and a session begins with none.
pub fn no_violation_at_first()
    ensures log { violation [] ≡ None }
    ensures session { (client : Bool) → violation (account client []).log ≡ None }
{}

/// A sending window is the initial size, plus the increments received, less the DATA sent; so a changed initial size
/// moves the windows of all streams, which may become negative, and leaves the connection's.
pub fn windows_are_sums()
    ensures connection { (a : Account) →
        connection_window a ≡ pos (65535 + total (increment 0) a.log) -ℤ pos (data_sent 0 a) }
    ensures stream { (id : ℕ) (a : Account) →
        stream_window id a ≡ pos (initial_window a.log + total (increment id) a.log) -ℤ pos (data_sent id a) }
{}

/// Bytes that were given are dropped from those that wait.
pub fn given_bytes_are_dropped()
    ensures { (client : Bool) (h : List Call) (n : ℕ) →
        flow (account client (Take n ∷ h)).waiting ≡ drop n (flow (account client h).waiting) }
{}

/// Bytes that come in two pieces leave what they leave in one.
pub fn bytes_in_any_cut()
    ensures { (xs ys : List ℕ) (a : Account) → with_bytes (xs ++ ys) a ≡ with_bytes ys (with_bytes xs a) }
{}

/// A stream is live exactly where its state is active or half-closed.
pub fn states_of_live_streams()
    ensures { (id : ℕ) (log : Log) → is_live id log ≡ is_live_state (state_of id log) }
{}

/// The first violation decides: no later call changes it.
pub fn first_violation_stays()
    ensures { (call : Call) (a : Account) (code : ℕ) → violation a.log ≡ Some code →
        violation (called call a).log ≡ Some code }
{}
