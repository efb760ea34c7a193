//! Bytes of answers that wait to be handed over.

ghost use Rattle.std.specs.Prelude.{◌≡◌, ◌≤◌, ◌++◌, [], drop, length, OnOk, OnErr};

use std::alloc::{AllocError, Global};
use std::marker::Model;

/// How many bytes that were handed over are kept at most beside as many others.
const KEPT: usize = 65_536;

/// Bytes in their order. Contracts see those that are left.
#[derive(Drop)]
pub struct Owed {
    bytes: Vec<u8>,
    // So many of them were handed over.
    gone: usize,
}

impl Model for Owed {
    ghost use Rattle.std.specs.Prelude.{List, ℕ, ◌≤◌, drop, length};

    ghost Value = { List ℕ };

    ghost view = { λ o. drop o.gone o.bytes.items };

    ghost invariant = { λ o. o.gone ≤ length o.bytes.items };
}

impl Owed {
    pub(crate) fn new(alloc: Global) -> Owed
        ensures { result ≡ [] }
    {
        Owed {
            bytes: Vec::new(alloc),
            gone: 0,
        }
    }

    /// The bytes that are left.
    pub(crate) fn bytes(&self) -> &[u8]
        ensures { result.now ≡ self.now }
    {
        &self.bytes[self.gone..]
    }

    /// More bytes. Out of memory nothing changes.
    pub(crate) fn push(&mut self, more: &[u8]) -> Result<(), AllocError>
        ensures pushed { OnOk result (self.new ≡ self.old ++ more.now) }
        ensures failed { OnErr result (self.new ≡ self.old) }
    {
        self.bytes.extend_from_slice(more)
    }

    /// So many bytes were handed over.
    pub(crate) fn pass(&mut self, count: usize)
        requires { count ≤ length self.old }
        ensures { self.new ≡ drop count self.old }
    {
        self.gone += count;
        if self.gone >= KEPT && self.gone >= self.bytes.len() / 2 {
            self.bytes.drain(..self.gone);
            self.gone = 0;
        }
    }
}
