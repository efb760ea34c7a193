//! A queue of byte lists.

ghost use Rattle.std.specs.Prelude.{◌≡◌, ◌++◌, ◌∷◌, ◌↔◌, [], length, IsTrue, MatchOption, OnOk, OnErr};

use pb_wire::Blob;
use std::alloc::{AllocError, Global};
use std::collections::VecDeque;
use std::marker::Model;

/// A first in, first out list of pieces. Contracts see the list.
#[derive(Drop)]
pub struct Pieces {
    pieces: VecDeque<Blob>,
}

impl Model for Pieces {
    ghost use Rattle.std.specs.Prelude.{List, ℕ};

    ghost Value = { List (List ℕ) };

    ghost view = { λ p. p.pieces.items };
}

impl Pieces {
    /// The empty list. It takes no memory.
    pub fn new(alloc: Global) -> Pieces
        ensures { result ≡ [] }
    {
        Pieces {
            pieces: VecDeque::new(alloc),
        }
    }

    /// Adds a piece at the end, or leaves the list as it was.
    pub fn push_back(&mut self, piece: Blob) -> Result<(), AllocError>
        ensures pushed { OnOk result (self.new ≡ self.old ++ piece ∷ []) }
        ensures unchanged { OnErr result (self.new ≡ self.old) }
    {
        self.pieces.push_back(piece)?;
        Ok(())
    }

    /// Takes the oldest piece.
    pub fn pop_front(&mut self) -> Option<Blob>
        ensures { MatchOption result ((self.old ≡ []) × (self.new ≡ [])) (λ piece. self.old ≡ piece ∷ self.new) }
    {
        self.pieces.pop_front()
    }

    /// How many pieces there are.
    pub fn len(&self) -> usize
        ensures { result ≡ length self.now }
    {
        self.pieces.len()
    }

    /// Whether there is none.
    pub fn is_empty(&self) -> bool
        ensures { IsTrue result ↔ (self.now ≡ []) }
    {
        self.pieces.is_empty()
    }
}
