//! The pieces of a body that wait to go out.

ghost use Rattle.std.specs.Prelude.{◌≡◌, ◌++◌, ◌∷◌, ℕ, List, [], drop, slice_get, OnOk, OnErr};
ghost use Rattle.half_machine.specs.Pieces.{unless_none};

use std::alloc::{AllocError, Global};
use std::collections::VecDeque;
use std::marker::Model;

/// The lengths of the pieces that wait to go out, oldest first. Each goes out whole, and none is empty.
#[derive(Drop)]
pub struct Lengths {
    items: VecDeque<u32>,
}

impl Model for Lengths {
    ghost use Rattle.std.specs.Prelude.{List, ℕ};

    ghost Value = { List ℕ };

    ghost view = { λ l. l.items.items };
}

impl Lengths {
    /// The empty list. It takes no memory.
    pub fn new(alloc: Global) -> Lengths
        ensures { result ≡ [] }
    {
        Lengths {
            items: VecDeque::new(alloc),
        }
    }

    /// One more waits, or the list is left as it was.
    pub fn push(&mut self, length: u32) -> Result<(), AllocError>
        ensures pushed { OnOk result (self.new ≡ self.old ++ length ∷ []) }
        ensures unchanged { OnErr result (self.new ≡ self.old) }
    {
        self.items.push_back(length)?;
        Ok(())
    }

    /// A piece waits, or the list is left as it was. An empty one doesn't wait.
    pub fn push_piece(&mut self, length: u32) -> Result<(), AllocError>
        ensures pushed { OnOk result (self.new ≡ self.old ++ unless_none length) }
        ensures unchanged { OnErr result (self.new ≡ self.old) }
    {
        if length == 0 {
            return Ok(());
        }
        self.push(length)
    }

    /// The newest doesn't wait after all.
    pub fn take_back(&mut self, length: u32)
        ensures { (xs : List ℕ) → self.old ≡ xs ++ unless_none length → self.new ≡ xs }
    {
        if length != 0 {
            self.items.pop_back();
        }
    }

    /// The oldest.
    pub fn first(&self) -> Option<u32>
        ensures { result ≡ slice_get self.now 0 }
    {
        self.items.front().copied()
    }

    /// The oldest, where there is one, went out.
    pub fn drop_first(&mut self)
        ensures { self.new ≡ drop 1 self.old }
    {
        self.items.pop_front();
    }
}
