//! Bytes on their way, and where those of a body stand among them.

ghost use Rattle.std.specs.Prelude.{◌≡◌, ◌+◌, ◌≤◌, min, length, IfOk, OnOk, OnErr};
ghost use Rattle.h1_outlet.specs.Ways.{first_of, gone_on};

use pb_wire::Blob;
use std::alloc::{AllocError, Global};
use std::marker::Model;
use std::mem;

/// Bytes that go to the side now.
#[derive(Drop)]
pub struct Gave {
    pub bytes: Blob,
    /// How many of them are body bytes.
    pub body: u32,
}

// Written bytes, of which the first `at` were given.
#[derive(Drop)]
pub struct Going {
    bytes: Blob,
    at: usize,
    // So many bytes of those left stand before the body bytes.
    skip: usize,
    // So many are body bytes.
    body: usize,
}

impl Model for Going {
    ghost use Rattle.std.specs.Prelude.{drop};
    ghost use Rattle.h1_outlet.specs.Ways.{Way, Fits};

    ghost Value = { Way };

    ghost view = { λ g. record { left = drop g.at g.bytes; skip = g.skip; body = g.body } };

    ghost invariant = { λ g. Fits g.bytes g.at g.skip g.body };
}

impl Going {
    // All of these bytes; `body` of them, behind the first `skip`, are of a body.
    pub(crate) fn of(bytes: Blob, skip: usize, body: usize) -> Going
        requires { skip + body ≤ length bytes }
        ensures { result ≡ record { left = bytes; skip = skip; body = body } }
    {
        Going {
            bytes,
            at: 0,
            skip,
            body,
        }
    }

    // How many bytes are left.
    pub(crate) fn len(&self) -> usize
        ensures { result ≡ length self.now.left }
    {
        self.bytes.len() - self.at
    }

    // The next bytes, at most `max`. A whole part that fits isn't copied.
    pub(crate) fn give(&mut self, alloc: Global, max: u32) -> Result<Gave, AllocError>
        ensures gives { IfOk result (λ gave. gave ≡ first_of (min (length self.old.left) max) self.old) }
        ensures left { OnOk result (self.new ≡ gone_on (min (length self.old.left) max) self.old) }
        ensures unchanged { OnErr result (self.new ≡ self.old) }
    {
        if self.at == 0 && self.bytes.len() <= max as usize {
            let bytes = mem::replace(&mut self.bytes, Blob::new(alloc));
            let body = self.body as u32;
            self.skip = 0;
            self.body = 0;
            return Ok(Gave { bytes, body });
        }
        let n = self.len().min(max as usize);
        let (_, left) = self.bytes.bytes().split_at(self.at);
        let (first, _) = left.split_at(n);
        let bytes = Blob::of(alloc, first)?;
        let body = n.saturating_sub(self.skip).min(self.body);
        self.skip = self.skip.saturating_sub(n);
        self.body -= body;
        self.at += n;
        if self.len() == 0 {
            // What was given takes no memory.
            self.bytes = Blob::new(alloc);
            self.at = 0;
        }
        Ok(Gave {
            bytes,
            body: body as u32,
        })
    }
}
