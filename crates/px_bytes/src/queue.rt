//! A queue of bytes whose room is reserved once.

ghost use Rattle.std.specs.Prelude.{◌≡◌, ◌+◌, ◌-◌, ◌*◌, ◌<◌, ◌≤◌, ◌^◌, ◌++◌, ◌↔◌, [], length, take, drop, All, IsTrue, IsErr, IfOk, OnOk, OnErr, vec_len, vec_capacity};
ghost use Rattle.px_bytes.specs.Queue.{pushed, dropped};

use std::alloc::{AllocError, Global};
use std::marker::Model;

/// The queue has no room for the piece.
#[derive(Clone, Copy)]
pub struct Full;

/// A first in, first out queue of bytes, of which it holds no more than its limit.
///
/// Only the constructor takes memory. Each byte is moved a bounded number of times, also where the front is dropped
/// byte by byte: the room is for twice the limit, so the bytes are moved to the room's beginning only after as many
/// were dropped.
#[derive(Drop)]
pub struct ByteQueue {
    items: Vec<u8>,
    // Where the bytes begin that weren't dropped.
    start: usize,
    limit: u32,
}

impl Model for ByteQueue {
    ghost use Rattle.std.specs.Prelude.{drop, All, ◌<◌};
    ghost use Rattle.px_bytes.specs.Queue.{Queue};

    ghost Value = { Queue };

    ghost view = { λ q. record { limit = q.limit; bytes = drop q.start q.items.items } };

    ghost use Rattle.px_bytes.specs.Fits.{Fits};

    ghost invariant = { λ q. Fits q.limit q.start q.items };
}

// Moves all behind the first bytes to the beginning.
fn compact(items: &mut Vec<u8>, start: usize)
    requires { start ≤ vec_len items.old }
    ensures items { items.new.items ≡ drop start items.old.items }
    ensures len { vec_len items.new + start ≡ vec_len items.old }
    ensures capacity { vec_capacity items.new ≡ vec_capacity items.old }
{
    let len = items.len();
    items.copy_within(start..len, 0);
    items.truncate(len - start);
}

// Appends bytes for which there is room.
fn append(items: &mut Vec<u8>, piece: &[u8])
    requires { vec_len items.old + length piece.now ≤ vec_capacity items.old }
    ensures items { items.new.items ≡ items.old.items ++ piece.now }
    ensures len { vec_len items.new ≡ vec_len items.old + length piece.now }
    ensures capacity { vec_capacity items.old ≤ vec_capacity items.new }
{
    let _ = items.extend_from_slice(piece);
}

impl ByteQueue {
    /// An empty queue that can hold so many bytes.
    pub fn with_limit(alloc: Global, limit: u32) -> Result<ByteQueue, AllocError>
        ensures { IfOk result (λ q. q ≡ record { limit = limit; bytes = [] }) }
    {
        let items = Vec::with_capacity(alloc, limit as usize * 2)?;
        Ok(ByteQueue {
            items,
            start: 0,
            limit,
        })
    }

    /// Adds a piece at the end, or, where it doesn't fit, leaves the queue as it was.
    pub fn push(&mut self, piece: &[u8]) -> Result<(), Full>
        ensures full { IsErr result ↔ (self.old.limit < length self.old.bytes + length piece.now) }
        ensures pushed { OnOk result (self.new ≡ pushed piece.now self.old) }
        ensures unchanged { OnErr result (self.new ≡ self.old) }
    {
        if piece.len() > self.room() as usize {
            return Err(Full);
        }
        if self.items.len() + piece.len() > self.limit as usize * 2 {
            compact(&mut self.items, self.start);
            self.start = 0;
        }
        append(&mut self.items, piece);
        Ok(())
    }

    /// How many more bytes fit.
    pub fn room(&self) -> u32
        ensures { result ≡ self.now.limit - length self.now.bytes }
    {
        self.limit - self.len()
    }

    /// How many bytes wait.
    pub fn len(&self) -> u32
        ensures count { result ≡ length self.now.bytes }
        ensures bound { result ≤ self.now.limit }
    {
        (self.items.len() - self.start) as u32
    }

    /// Whether none waits.
    pub fn is_empty(&self) -> bool
        ensures { IsTrue result ↔ (self.now.bytes ≡ []) }
    {
        self.front().is_empty()
    }

    /// All bytes that wait, the oldest first.
    pub fn front(&self) -> &[u8]
        ensures list { result.now ≡ self.now.bytes }
        ensures range { All (λ x. x < 256) self.now.bytes }
    {
        let (_, bytes) = self.items.as_slice().split_at(self.start);
        bytes
    }

    /// Takes the first bytes away.
    pub fn drop_front(&mut self, n: u32)
        requires { n ≤ length self.old.bytes }
        ensures { self.new ≡ dropped n self.old }
    {
        self.start += n as usize;
        if self.start == self.items.len() {
            // Nothing waits: the room is used from its beginning again.
            self.items.clear();
            self.start = 0;
        }
    }
}
