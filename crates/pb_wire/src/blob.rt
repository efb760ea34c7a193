//! A byte list that owns its memory.

ghost use Rattle.std.specs.Prelude.{◌≡◌, ◌<◌, ◌↔◌, [], length, All, IsTrue, IfOk};

use crate::Duplicate;
use std::alloc::{AllocError, Global};
use std::marker::Model;

/// A list of bytes. Contracts see the list and nothing of how it is kept.
#[derive(Debug, Drop)]
pub struct Blob {
    bytes: Vec<u8>,
}

impl Model for Blob {
    ghost use Rattle.std.specs.Prelude.{List, ℕ, All, ◌<◌};

    ghost Value = { List ℕ };

    ghost view = { λ b. b.bytes.items };

    ghost invariant = { λ b. All (λ x. x < 256) b.bytes.items };
}

impl Blob {
    /// The empty list. It takes no memory.
    pub fn new(alloc: Global) -> Blob
        ensures { result ≡ [] }
    {
        Blob {
            bytes: Vec::new(alloc),
        }
    }

    /// The list of these bytes.
    pub fn of(alloc: Global, bytes: &[u8]) -> Result<Blob, AllocError>
        ensures { IfOk result (λ blob. blob ≡ bytes.now) }
    {
        let bytes = bytes.to_vec(alloc)?;
        Ok(Blob { bytes })
    }

    /// The bytes of a `Vec`, without copying them.
    pub fn from_vec(bytes: Vec<u8>) -> Blob
        ensures { result ≡ bytes.items }
    {
        Blob { bytes }
    }

    /// The bytes, to be read.
    pub fn bytes(&self) -> &[u8]
        ensures list { result.now ≡ self.now }
        ensures range { All (λ x. x < 256) self.now }
    {
        self.bytes.as_slice()
    }

    /// How many bytes there are.
    pub fn len(&self) -> usize
        ensures { result ≡ length self.now }
    {
        self.bytes.len()
    }

    /// Whether there is none.
    pub fn is_empty(&self) -> bool
        ensures { IsTrue result ↔ (self.now ≡ []) }
    {
        self.bytes.is_empty()
    }
}

impl Duplicate for Blob {
    fn copy(&self) -> Result<Blob, AllocError> {
        let bytes = self.bytes.clone()?;
        Ok(Blob { bytes })
    }
}
