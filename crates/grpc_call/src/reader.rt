//! Reading a response, which comes in field blocks and in DATA that is cut anyhow.

ghost use Rattle.std.specs.Prelude.{◌≡◌, ◌+◌, ◌≤◌, ◌<◌, ◌^◌, ◌++◌, length, vec_len, vec_capacity, IfOk, IfSome};
ghost use Rattle.grpc_call.specs.Blocks.{is_some_byte};
ghost use Rattle.grpc_call.specs.Reading.{begun, block_in, ended_behind, headed_by, told_by, ReadsData};
ghost use Rattle.grpc_call.specs.Served.{begun_request};
ghost use Rattle.grpc_call.specs.Keeping.{Finishes, IsAdded, IsParted, StartsAs};

use crate::fault::CallFault;
use crate::heads::{Block, block_of};
use crate::prefix::{PREFIX, fault_of, size_of};
use ext_msgs::FieldList;
use pb_wire::Blob;
use std::alloc::{AllocError, Global};
use std::marker::Model;
use std::mem;

// What the bytes so far begin with, as far as the prefix and their number tell.
enum Start {
    /// The length of the message, 0 while the prefix isn't whole.
    Unfinished(u32),
    Refused(CallFault),
    /// The length of the message.
    Whole(u32),
}

// The kept bytes are a prefix, or some of one, and behind a whole one the message so far.
fn start_of(limit: u32, prefix: &[u8], message: &[u8], bytes: &[u8]) -> Start
    requires parted { IsParted prefix.now message.now }
    requires kept { length message.now < 2 ^ 32 }
    requires bytes { length bytes.now < 2 ^ 32 }
    ensures { StartsAs limit (prefix.now ++ message.now ++ bytes.now) result }
{
    if prefix.len() + bytes.len() < PREFIX {
        return Start::Unfinished(0);
    }
    if let Some(fault) = fault_of(prefix, bytes, limit) {
        return Start::Refused(fault);
    }
    let size = size_of(prefix, bytes);
    if prefix.len() + message.len() + bytes.len() < PREFIX + size as usize {
        return Start::Unfinished(size);
    }
    Start::Whole(size)
}

// Appends bytes for which there is room.
fn append(kept: &mut Vec<u8>, bytes: &[u8])
    requires { vec_len kept.old + length bytes.now ≤ vec_capacity kept.old }
    ensures { kept.new.items ≡ kept.old.items ++ bytes.now }
{
    let _ = kept.extend_from_slice(bytes);
}

// Keeps bytes of a message of this length. Out of memory changes nothing.
fn keep(
    prefix: &mut Vec<u8>,
    message: &mut Vec<u8>,
    bytes: &[u8],
    size: u32,
) -> Result<(), AllocError>
    requires parted { IsParted prefix.old.items message.old.items }
    ensures { IsAdded prefix.old.items message.old.items bytes.now result prefix.new.items message.new.items }
{
    let (front, content) = bytes.split_at(bytes.len().min(PREFIX - prefix.len()));
    prefix.reserve(front.len())?;
    message.reserve(
        content
            .len()
            .max((size as usize).saturating_sub(message.len())),
    )?;
    append(prefix, front);
    append(message, content);
    Ok(())
}

// The message that these bytes end, of which nothing is kept then. Out of memory changes nothing.
fn finish(prefix: &mut Vec<u8>, message: &mut Vec<u8>, last: &[u8]) -> Result<Blob, AllocError>
    requires parted { IsParted prefix.old.items message.old.items }
    requires whole { 5 ≤ vec_len prefix.old + length last.now }
    ensures { Finishes prefix.old.items message.old.items last.now result prefix.new.items message.new.items }
{
    let alloc = *message.allocator();
    let (_, content) = last.split_at(PREFIX - prefix.len());
    if message.is_empty() {
        let whole = Blob::of(alloc, content)?;
        prefix.clear();
        return Ok(whole);
    }
    message.extend_from_slice(content)?;
    prefix.clear();
    Ok(Blob::from_vec(mem::replace(message, Vec::new(alloc))))
}

/// Reads a response of a call. Contracts see the limit of messages, whether the head came, and the bytes of the message
/// that isn't whole yet; it keeps no others.
#[derive(Drop)]
pub struct CallReader {
    limit: u32,
    headed: bool,
    prefix: Vec<u8>,
    message: Vec<u8>,
}

impl Model for CallReader {
    ghost use Rattle.std.specs.Prelude.{◌++◌};
    ghost use Rattle.grpc_call.specs.Reading.{Response};
    ghost use Rattle.grpc_call.specs.Keeping.{IsKept};

    ghost Value = { Response };

    ghost view = { λ r. record { limit = r.limit; headed = r.headed; rest = r.prefix.items ++ r.message.items } };

    ghost invariant = { λ r. IsKept r.limit r.prefix.items r.message.items };
}

impl CallReader {
    /// A reader before the response's head, of messages of at most `limit` bytes. It takes no memory.
    pub fn new(alloc: Global, limit: u32) -> CallReader
        ensures { result ≡ begun limit }
    {
        CallReader {
            limit,
            headed: false,
            prefix: Vec::new(alloc),
            message: Vec::new(alloc),
        }
    }

    /// A reader of a request, whose head is judged elsewhere, of messages of at most `limit` bytes. It takes no memory.
    pub fn request(alloc: Global, limit: u32) -> CallReader
        ensures { result ≡ begun_request limit }
    {
        CallReader {
            limit,
            headed: true,
            prefix: Vec::new(alloc),
            message: Vec::new(alloc),
        }
    }

    // Whether a message is unfinished.
    fn is_within(&self) -> bool
        ensures { result ≡ is_some_byte self.now.rest }
    {
        !self.prefix.is_empty()
    }

    /// Takes a field block of the response, and whether it ends the stream: its `grpc-status` then. A fault leaves the
    /// reader as it was.
    pub fn head(&mut self, fields: &FieldList, ends: bool) -> Result<Option<u32>, CallFault>
        ensures told { result ≡ told_by (block_in self.old fields.now ends) }
        ensures headed { self.new ≡ headed_by (block_in self.old fields.now ends) self.old }
    {
        match block_of(self.headed, self.is_within(), fields, ends) {
            Block::Skips => Ok(None),
            Block::Begins => {
                self.headed = true;
                Ok(None)
            }
            Block::Ends(status) => Ok(Some(status)),
            Block::Refuses(fault) => Err(fault),
        }
    }

    // What is at fault with a stream that ends behind bytes of which no message is whole.
    fn end_behind(&self, bytes: &[u8]) -> CallFault
        ensures { result ≡ ended_behind self.now.rest bytes.now }
    {
        if self.is_within() || !bytes.is_empty() {
            return CallFault::Cut;
        }
        CallFault::NoStatus
    }

    /// Takes DATA, and whether it ends the stream: the next message, and how many of the bytes end it, or none where no
    /// message is whole; all bytes are kept then. A stream that ends with DATA has no `grpc-status`, so once its
    /// messages are told it is a fault. A fault leaves the reader as it was.
    pub fn data(&mut self, bytes: &[u8], ends: bool) -> Result<Option<(Blob, u32)>, CallFault>
        requires { length bytes.now < 2 ^ 32 }
        ensures told { ReadsData self.old bytes.now ends result self.new }
        ensures some { IfOk result (λ o. IfSome o (λ p. 0 < p.1)) }
    {
        if !self.headed {
            return Err(CallFault::Head);
        }
        match start_of(
            self.limit,
            self.prefix.as_slice(),
            self.message.as_slice(),
            bytes,
        ) {
            Start::Refused(fault) => Err(fault),
            Start::Unfinished(_) if ends => Err(self.end_behind(bytes)),
            Start::Unfinished(size) => {
                keep(&mut self.prefix, &mut self.message, bytes, size)?;
                Ok(None)
            }
            Start::Whole(size) => {
                let used = PREFIX + size as usize - self.prefix.len() - self.message.len();
                let (last, _) = bytes.split_at(used);
                let message = finish(&mut self.prefix, &mut self.message, last)?;
                Ok(Some((message, used as u32)))
            }
        }
    }

    /// How many bytes are kept: those of the unfinished message and its prefix.
    pub fn held(&self) -> u64
        ensures count { result ≡ length self.now.rest }
        ensures bound { result < self.now.limit + 5 }
    {
        (self.prefix.len() + self.message.len()) as u64
    }
}
