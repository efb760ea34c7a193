//! Reading frames from bytes that come in pieces.

ghost use Rattle.std.specs.Prelude.{◌≡◌, ◌+◌, ◌≤◌, ◌<◌, ◌^◌, ◌++◌, [], None, false, length, take, drop, slice_index, IfOk, OnOk, OnErr, vec_len, vec_capacity};
ghost use Rattle.h2_frames.specs.Headers.{header_of, header_fault, has_wrong_size};
ghost use Rattle.h2_frames.specs.Payloads.{frame_of};
ghost use Rattle.h2_frames.specs.Frames.{first, Unfinished};
ghost use Rattle.h2_frames.specs.Reading.{GivesRead, Tells, Starts, Feeds};

use crate::fault::FrameFault;
use crate::frame::Frame;
use crate::header::{Header, Kind};
use crate::protocol::{HEAD_LEN, LONGEST_PAYLOAD};
use crate::{
    continuation, data_frame, goaway, headers_frame, ping, priority, push_promise, rst_stream,
    settings, window_update,
};
use std::alloc::{AllocError, Global};
use std::marker::Model;

/// What came of some bytes.
#[derive(Drop)]
pub enum Step {
    /// No frame is whole; all bytes were taken.
    More,
    /// A frame, and how many of the bytes were used up to its last.
    Got(Frame, u32),
}

// The frame that a whole payload is.
#[tactic(auto, unfolding(crate::specs::Payloads::frame_of))]
fn frame(alloc: Global, header: Header, payload: &[u8]) -> Result<Frame, FrameFault>
    requires whole { length payload.now ≡ header.size }
    requires sized { has_wrong_size header.kind header ≡ false }
    ensures { GivesRead (λ f. f) result (frame_of header.kind header payload.now) }
{
    match header.kind {
        Kind::Data => data_frame::read(alloc, header, payload),
        Kind::Headers => headers_frame::read(alloc, header, payload),
        Kind::Priority => Ok(priority::read(header, payload)),
        Kind::Reset => Ok(rst_stream::read(header, payload)),
        Kind::Settings => settings::read(alloc, header, payload),
        Kind::Push => Ok(push_promise::read(header, payload)),
        Kind::Ping => Ok(ping::read(header, payload)),
        Kind::GoAway => Ok(goaway::read(header, payload)),
        Kind::Window => Ok(window_update::read(header, payload)),
        Kind::Continuation => continuation::read(alloc, header, payload),
        Kind::Unknown(code) => Ok(Frame::Unknown(code)),
    }
}

// A byte of the kept ones and the new ones behind them.
fn byte_at(kept: &[u8], bytes: &[u8], i: usize) -> u8
    requires { i < length kept.now + length bytes.now }
    ensures { result ≡ slice_index (kept.now ++ bytes.now) i }
{
    if i < kept.len() {
        return kept[i];
    }
    bytes[i - kept.len()]
}

// The header with which the kept bytes and the new ones begin.
#[tactic(auto, unfolding(crate::specs::Headers::header_of))]
fn header_across(kept: &[u8], bytes: &[u8]) -> Header
    requires { 9 ≤ length kept.now + length bytes.now }
    ensures { result ≡ header_of (kept.now ++ bytes.now) }
{
    Header::of([
        byte_at(kept, bytes, 0),
        byte_at(kept, bytes, 1),
        byte_at(kept, bytes, 2),
        byte_at(kept, bytes, 3),
        byte_at(kept, bytes, 4),
        byte_at(kept, bytes, 5),
        byte_at(kept, bytes, 6),
        byte_at(kept, bytes, 7),
        byte_at(kept, bytes, 8),
    ])
}

// Appends bytes for which there is room.
fn append(kept: &mut Vec<u8>, bytes: &[u8])
    requires { vec_len kept.old + length bytes.now ≤ vec_capacity kept.old }
    ensures items { kept.new.items ≡ kept.old.items ++ bytes.now }
    ensures len { vec_len kept.new ≡ vec_len kept.old + length bytes.now }
    ensures capacity { vec_capacity kept.old ≤ vec_capacity kept.new }
{
    let _ = kept.extend_from_slice(bytes);
}

// What the bytes so far begin with, as far as the nine bytes and the length tell.
enum Start {
    Unfinished,
    Faulty(u32),
    Whole(Header),
}

#[tactic(auto, using(crate::proofs::First::first_short, crate::proofs::First::first_refused, crate::proofs::First::first_waits))]
fn start_of(kept: &[u8], bytes: &[u8]) -> Start
    requires kept { length kept.now < 16_393 }
    requires bytes { length bytes.now < 2 ^ 32 }
    ensures { Starts (kept.now ++ bytes.now) result }
{
    let count = kept.len() + bytes.len();
    if count < HEAD_LEN {
        return Start::Unfinished;
    }
    let header = header_across(kept, bytes);
    if let Some(code) = header.fault() {
        return Start::Faulty(code);
    }
    if count < header.frame_len() {
        return Start::Unfinished;
    }
    Start::Whole(header)
}

// Reads a frame of which all bytes are there.
#[tactic(auto, using(crate::proofs::First::told, crate::proofs::First::length_right))]
fn whole(alloc: Global, header: Header, bytes: &[u8]) -> Result<Frame, FrameFault>
    requires header { header ≡ header_of bytes.now }
    requires right { header_fault header ≡ None }
    requires len { length bytes.now ≡ 9 + header.size }
    ensures { Tells bytes.now result }
{
    let (_, payload) = bytes.split_at(HEAD_LEN);
    frame(alloc, header, payload)
}

// Reads the frame that ends with the last bytes. Nothing is kept then; a refusal changes nothing.
fn finish(kept: &mut Vec<u8>, header: Header, last: &[u8]) -> Result<Frame, FrameFault>
    requires header { header ≡ header_of (kept.old.items ++ last.now) }
    requires right { header_fault header ≡ None }
    requires len { vec_len kept.old + length last.now ≡ 9 + header.size }
    requires room { vec_len kept.old + length last.now ≤ vec_capacity kept.old }
    ensures frame { Tells (kept.old.items ++ last.now) result }
    ensures used { OnOk result (kept.new.items ≡ []) }
    ensures unchanged { OnErr result (kept.new.items ≡ kept.old.items) }
    ensures capacity { vec_capacity kept.old ≤ vec_capacity kept.new }
{
    let alloc = *kept.allocator();
    if kept.is_empty() {
        return whole(alloc, header, last);
    }
    let len = kept.len();
    append(kept, last);
    match whole(alloc, header, kept.as_slice()) {
        Ok(frame) => {
            kept.clear();
            Ok(frame)
        }
        Err(fault) => {
            kept.truncate(len);
            Err(fault)
        }
    }
}

/// Reads frames from bytes that come in pieces. Contracts see the bytes of the frame that isn't whole yet; it keeps no
/// others.
#[derive(Drop)]
pub struct FrameReader {
    kept: Vec<u8>,
}

impl Model for FrameReader {
    ghost use Rattle.std.specs.Prelude.{List, ℕ, ◌≡◌, ◌≤◌, vec_capacity};
    ghost use Rattle.h2_frames.specs.Frames.{first, Unfinished};

    ghost Value = { List ℕ };

    ghost view = { λ r. r.kept.items };

    ghost invariant = { λ r. (first r.kept.items ≡ Unfinished) × (16_393 ≤ vec_capacity r.kept) };
}

impl FrameReader {
    /// A reader before its first byte.
    pub fn new(alloc: Global) -> Result<FrameReader, AllocError>
        ensures { IfOk result (λ r. r ≡ []) }
    {
        let kept = Vec::with_capacity(alloc, HEAD_LEN + LONGEST_PAYLOAD as usize)?;
        Ok(FrameReader { kept })
    }

    /// The next frame, if the bytes so far have a whole one. It answers the code of the first fault as soon as the
    /// bytes tell it, and then the same again. A refusal leaves the reader as it was.
    pub fn feed(&mut self, bytes: &[u8]) -> Result<Step, FrameFault>
        requires { length bytes.now < 2 ^ 32 }
        ensures { Feeds self.old bytes.now result self.new }
    {
        let header = match start_of(self.kept.as_slice(), bytes) {
            Start::Unfinished => {
                append(&mut self.kept, bytes);
                return Ok(Step::More);
            }
            Start::Faulty(code) => return Err(FrameFault::Code(code)),
            Start::Whole(header) => header,
        };
        let (last, _) = bytes.split_at(header.frame_len() - self.kept.len());
        let frame = finish(&mut self.kept, header, last)?;
        Ok(Step::Got(frame, last.len() as u32))
    }

    /// How many bytes are kept: those of the unfinished frame.
    pub fn held(&self) -> u64
        ensures count { result ≡ length self.now }
        ensures bound { result < 16_393 }
    {
        self.kept.len() as u64
    }
}
