//! The streams that had the fixed text.

ghost use Rattle.std.specs.Prelude.{◌≡◌, ◌∷◌, ◌++◌, [], ◌==◌, not, filter, OnOk, OnErr};
ghost use Rattle.rule_book.specs.Given.{has, marked};

use crate::book::BodyRule;
use std::alloc::{AllocError, Global};
use std::marker::Model;

/// The live streams whose body had the fixed text in one direction.
#[derive(Drop)]
pub(crate) struct Given {
    streams: Vec<u32>,
}

impl Model for Given {
    ghost use Rattle.std.specs.Prelude.{List, ℕ};

    ghost Value = { List ℕ };

    ghost view = { λ g. g.streams.items };
}

impl Given {
    pub(crate) fn new(alloc: Global) -> Given
        ensures { result ≡ [] }
    {
        Given {
            streams: Vec::new(alloc),
        }
    }

    /// Whether a stream had it.
    #[tactic(auto, unfolding(crate::specs::Given::has))]
    pub(crate) fn has(&self, stream: u32) -> bool
        ensures { result ≡ has stream self.now }
    {
        self.streams.iter().any(|s| *s == stream)
    }

    fn add(&mut self, stream: u32) -> Result<(), AllocError>
        ensures added { OnOk result (self.new ≡ self.old ++ stream ∷ []) }
        ensures kept { OnErr result (self.new ≡ self.old) }
    {
        self.streams.push(stream)?;
        Ok(())
    }

    /// A stream has it now, where the rule is a fixed text.
    #[tactic(auto, unfolding(crate::specs::Given::marked))]
    pub(crate) fn mark(&mut self, rule: BodyRule, stream: u32) -> Result<(), AllocError>
        ensures marked { OnOk result (self.new ≡ marked rule stream self.old) }
        ensures kept { OnErr result (self.new ≡ self.old) }
    {
        match rule {
            BodyRule::Fixed => {
                if self.has(stream) {
                    return Ok(());
                }
                self.add(stream)?;
                Ok(())
            }
            BodyRule::Keep | BodyRule::Upper | BodyRule::Clear => Ok(()),
        }
    }

    /// A stream has ended.
    pub(crate) fn remove(&mut self, stream: u32)
        ensures { self.new ≡ filter (λ s. not (s == stream)) self.old }
    {
        self.streams.retain(|s| *s != stream);
    }
}
