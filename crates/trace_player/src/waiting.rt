//! Bytes that arrived and weren't fed.

ghost use Rattle.std.specs.Prelude.{◌≡◌, ◌≤◌, ◌++◌, [], length, min, take, drop, IfOk, OnOk, OnErr};
ghost use Rattle.http_model.specs.Bytes.{is_empty};

use pb_wire::Blob;
use std::alloc::{AllocError, Global};
use std::marker::Model;

/// A first in, first out list of bytes. Each byte is copied once on its way in and once on its way out.
#[derive(Drop)]
pub struct Waiting {
    bytes: Vec<u8>,
    // How many of them were taken away.
    start: usize,
}

impl Model for Waiting {
    ghost use Rattle.std.specs.Prelude.{ℕ, List, drop, ◌≤◌, vec_len};

    ghost Value = { List ℕ };

    ghost view = { λ w. drop w.start w.bytes.items };

    ghost invariant = { λ w. w.start ≤ vec_len w.bytes };
}

impl Waiting {
    /// The empty list. It takes no memory.
    pub fn new(alloc: Global) -> Waiting
        ensures { result ≡ [] }
    {
        Waiting {
            bytes: Vec::new(alloc),
            start: 0,
        }
    }

    /// Adds bytes at the end.
    pub fn push(&mut self, bytes: &[u8]) -> Result<(), AllocError>
        ensures { OnOk result (self.new ≡ self.old ++ bytes.now) }
    {
        self.bytes.extend_from_slice(bytes)?;
        Ok(())
    }

    /// Whether none waits.
    pub fn is_empty(&self) -> bool
        ensures { result ≡ is_empty self.now }
    {
        self.start == self.bytes.len()
    }

    /// A copy of the first bytes, at most so many.
    pub fn front(&self, alloc: Global, most: u32) -> Result<Blob, AllocError>
        ensures { IfOk result (λ bytes. bytes ≡ take most self.now) }
    {
        let (_, rest) = self.bytes.as_slice().split_at(self.start);
        let (front, _) = rest.split_at(rest.len().min(most as usize));
        Blob::of(alloc, front)
    }

    /// Takes the first bytes away, and lets their room be used anew once none is left.
    pub fn drop_front(&mut self, n: u32)
        requires { n ≤ length self.old }
        ensures { self.new ≡ drop n self.old }
    {
        self.start += n as usize;
        if self.start == self.bytes.len() {
            self.bytes.clear();
            self.start = 0;
        }
    }
}
