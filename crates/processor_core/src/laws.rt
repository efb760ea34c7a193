//! Laws of these definitions, as contracts of functions that do nothing.
ghost use Rattle.std.specs.Prelude.{Bool, List, Some, ◌++◌, ◌≡◌, ℕ};
ghost use Rattle.processor_core.specs.Calls.{Desk, Fate, heard};

/// Whatever comes on a call, an answer that waits stays, in its place: more is only added behind.
pub fn answers_stay()
    ensures { (fs : List Fate) (bytes : List ℕ) (ends : Bool) (d e : Desk) → heard fs bytes ends d ≡ Some e
        → (more : List ℕ) × (e.call.owed ≡ d.call.owed ++ more) }
{}
