//! What holds of every replay.

ghost use Rattle.std.specs.Prelude.{◌≡◌, List, ℕ, Option, Some};
ghost use Rattle.trace_model.specs.Places.{First, Place};
ghost use Rattle.ext_top.specs.declared.status.Status.{Status};
ghost use Rattle.ext_top.specs.Decided.{Decides};
ghost use Rattle.ext_top.specs.Exchanges.{RightAlong};
ghost use Rattle.ext_top.specs.Plays.{EndsReplay, IsVerdict, LinesLead};

/// The bytes of a trace decide which of `Done`, `TraceFault`, `ConfigFault` and `NotBuilt` its replay comes to, by what
/// its lines are, and only one of them can be. So each comes exactly where its clause says, unless a read or a write
/// failed or memory ran out.
pub fn one_verdict()
    ensures decided { (bytes : List ℕ) (s : Status) (left written written2 : Option (List ℕ)) → IsVerdict s
        → EndsReplay s (Some bytes) left written written2 → Decides bytes s }
    ensures one { (bytes : List ℕ) (s t : Status) → Decides bytes s → Decides bytes t → s ≡ t }
{}

/// At each place that the lines of a trace lead through, every exchange does right, has given all that is whole, and is
/// at rest: of a port that isn't held the last calls gave nothing. Where none is held, all of it is quiet.
pub fn always_right()
    ensures { (lines : List (List ℕ)) (text : List ℕ) (p : Place) (steps : LinesLead 0 First lines text p)
        → RightAlong 0 First lines text p steps }
{}
