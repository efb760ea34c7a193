//! What holds of every message trace that is played.

ghost use Rattle.std.specs.Prelude.{◌≡◌, ℕ, List, true, false};
ghost use Rattle.filter_model.specs.Config.{FilterConfig};
ghost use Rattle.filter_model.specs.Right.{Call, Right, Whole, is_quiet};
ghost use Rattle.trace_format.specs.declared.line.TraceLine.{TraceLine};
ghost use Rattle.trace_format.specs.declared.out.OutLine.{OutLine};
ghost use Rattle.trace_model.specs.Links.{ExchangeState};
ghost use Rattle.trace_model.specs.Places.{Goes, Leads, Place};
ghost use Rattle.trace_model.specs.Rounds.{is_at_rest};
ghost use Rattle.trace_model.specs.Verdicts.{TextLeads, next_shape, shape_after, shape_of};

/// An exchange that was played to rest does right, and has given all that is whole: the headline.
pub fn each_is_right()
    ensures { (c : FilterConfig) (x : ℕ) (before : List Call) (met after : ExchangeState) (lines : List OutLine) →
        Goes c x before met after lines → Right c after.calls × Whole c after.calls }
{}

/// Behind each line the exchanges that it is about are at rest: of a port that isn't held the last calls gave nothing.
/// Where none is held, all of the exchange is quiet.
pub fn at_rest()
    ensures ports { (c : FilterConfig) (x : ℕ) (before : List Call) (met after : ExchangeState) (lines : List OutLine) →
        Goes c x before met after lines → is_at_rest after ≡ true }
    ensures quiet { (x : ExchangeState) → is_at_rest x ≡ true → x.client.held ≡ false → x.up.held ≡ false
        → is_quiet x.calls ≡ true }
{}

/// Which lines may stand where hangs on the lines before alone, not on what the exchanges did.
pub fn shape_follows()
    ensures line { (p q : Place) (l : TraceLine) (lines : List OutLine) → Leads p l lines q
        → shape_of q ≡ next_shape (shape_of p) l }
    ensures text { (p q : Place) (text : List ℕ) (lines : List OutLine) → TextLeads p text lines q
        → shape_of q ≡ shape_after (shape_of p) text }
{}
