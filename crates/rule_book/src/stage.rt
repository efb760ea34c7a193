//! What a processor asks.

ghost use Rattle.std.specs.Prelude.{ℕ, ◌≡◌, ◌∷◌, List};
ghost use Rattle.rule_book.specs.Stages.{Conduct, StageCall, Over, Decides};

use ext_msgs::{Answer, Ask};

/// What a stage says to an ask.
#[derive(Drop)]
pub enum Verdict {
    /// The next stage decides.
    Pass,
    Answer(Answer),
    /// It is asked no more.
    Broken,
    /// Out of memory: the stage stays as it was.
    Memory,
}

/// One of the stages of a processor. What it says is a function of its past: the asks that it was given, but for
/// those at which it said `Memory`, and the ends of streams.
pub trait Stage: Drop {
    /// Its conduct and its past, newest first.
    ghost stands: { Self → Conduct → List StageCall → Type 0 };

    /// It is given an ask of a stream.
    fn ask(&mut self, stream: u32, ask: &Ask) -> Verdict
        ensures { (conduct : Conduct) (past : List StageCall) → stands self.old conduct past
            → Decides conduct past stream ask.now result (stands self.new conduct) };

    /// A stream has ended.
    fn over(&mut self, stream: u32)
        ensures { (conduct : Conduct) (past : List StageCall) → stands self.old conduct past
            → stands self.new conduct (Over stream ∷ past) };
}
