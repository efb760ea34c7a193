//! Asks that were answered before they were handed out.

ghost use Rattle.std.specs.Prelude.{◌≡◌, ◌++◌, ◌∷◌, [], MatchOption, OnOk, OnErr, min, sum_by};
ghost use Rattle.half_machine.specs.Beside.{ask_size};

use crate::beside::asks_size;
use ext_msgs::Ask;
use std::alloc::{AllocError, Global};
use std::collections::VecDeque;
use std::marker::Model;

/// Asks that wait to be handed out, though they are answered and nothing else of them is kept: oldest first.
#[derive(Drop)]
pub struct Ready {
    asks: VecDeque<Ask>,
}

impl Model for Ready {
    ghost use Rattle.std.specs.Prelude.{List};
    ghost use Rattle.ext_msgs.specs.declared.ask.Ask.{Ask};

    ghost Value = { List Ask };

    ghost view = { λ r. r.asks.items };
}

impl Ready {
    /// None. It takes no memory.
    pub fn new(alloc: Global) -> Ready
        ensures { result ≡ [] }
    {
        Ready {
            asks: VecDeque::new(alloc),
        }
    }

    /// Adds an ask at the end, or leaves them as they were.
    pub fn push(&mut self, ask: Ask) -> Result<(), AllocError>
        ensures pushed { OnOk result (self.new ≡ self.old ++ ask ∷ []) }
        ensures unchanged { OnErr result (self.new ≡ self.old) }
    {
        self.asks.push_back(ask)?;
        Ok(())
    }

    /// How many bytes they have, or 2^64 - 1 where there are more.
    pub fn size(&self) -> u64
        ensures { result ≡ min (sum_by ask_size self.now) 18_446_744_073_709_551_615 }
    {
        let size = asks_size(&self.asks);
        size
    }

    /// Takes the oldest.
    pub fn take(&mut self) -> Option<Ask>
        ensures { MatchOption result ((self.old ≡ []) × (self.new ≡ [])) (λ ask. self.old ≡ ask ∷ self.new) }
    {
        self.asks.pop_front()
    }
}
