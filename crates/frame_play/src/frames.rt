//! Frames.

ghost use Rattle.std.specs.Prelude.{◌≡◌, true};
ghost use Rattle.h2_frames.specs.Copied.{IsShort};

use crate::text::{push_hex, push_number};
use anyhow::{Result, bail};
use h2_frames::{Frame, FrameFault, FrameReader, Setting, Step, copy_frame, frame_len};
use std::alloc::Global;

/// The most bytes of frames, and the most frames of a piece.
const MOST: usize = 1000;

fn push_numbers(alloc: Global, told: &mut String, word: &str, numbers: &[u32]) -> Result<()> {
    told.push_str(word)?;
    for number in numbers {
        push_number(alloc, told, "", u64::from(*number))?;
    }
    Ok(())
}

fn push_settings(alloc: Global, told: &mut String, list: &[Setting]) -> Result<()> {
    told.push_str("settings")?;
    for setting in list {
        push_number(alloc, told, "", u64::from(setting.identifier))?;
        push_number(alloc, told, " is", u64::from(setting.value))?;
    }
    Ok(())
}

// Appends a word where it holds.
fn push_if(told: &mut String, holds: bool, word: &str) -> Result<()> {
    if holds {
        told.push_str(word)?;
    }
    Ok(())
}

// Appends a part of a field block.
fn push_block(alloc: Global, told: &mut String, part: &[u8], ends: bool) -> Result<()> {
    push_hex(alloc, told, " block", part)?;
    push_if(told, ends, " whole")
}

// Appends a frame.
fn push_frame(alloc: Global, told: &mut String, frame: &Frame) -> Result<()> {
    match frame {
        Frame::Data(stream, content, last, len) => {
            push_numbers(alloc, told, "data", &[*stream])?;
            push_hex(alloc, told, " content", content.bytes())?;
            push_number(alloc, told, " counts", u64::from(*len))?;
            push_if(told, *last, " last")
        }
        Frame::Headers(stream, block, last, ends) => {
            push_numbers(alloc, told, "headers", &[*stream])?;
            push_block(alloc, told, block.bytes(), *ends)?;
            push_if(told, *last, " last")
        }
        Frame::Continuation(stream, block, ends) => {
            push_numbers(alloc, told, "continuation", &[*stream])?;
            push_block(alloc, told, block.bytes(), *ends)
        }
        Frame::Priority(stream) => push_numbers(alloc, told, "priority", &[*stream]),
        Frame::Reset(stream, code) => push_numbers(alloc, told, "reset", &[*stream, *code]),
        Frame::Settings(list) => push_settings(alloc, told, list.as_slice()),
        Frame::SettingsAck => Ok(told.push_str("settings-ack")?),
        Frame::Push(stream) => push_numbers(alloc, told, "push", &[*stream]),
        Frame::Ping(ack, bytes) => {
            push_hex(alloc, told, "ping", bytes)?;
            push_if(told, *ack, " ack")
        }
        Frame::GoAway(last, code) => push_numbers(alloc, told, "goaway", &[*last, *code]),
        Frame::Window(stream, n) => push_numbers(alloc, told, "window", &[*stream, *n]),
        Frame::Unknown(kind) => push_numbers(alloc, told, "unknown", &[u32::from(*kind)]),
    }
}

// Tells the frames of a piece, and whether none is refused.
fn feed(alloc: Global, reader: &mut FrameReader, told: &mut String, piece: &[u8]) -> Result<bool> {
    let mut rest = piece;
    for _ in 0..MOST {
        if rest.len() > MOST {
            bail!("too many bytes");
        }
        match reader.feed(rest) {
            Ok(Step::More) => return Ok(true),
            Ok(Step::Got(frame, used)) => {
                push_frame(alloc, told, &frame)?;
                told.push_str("; ")?;
                let (_, behind) = rest.split_at(used as usize);
                rest = behind;
            }
            Err(FrameFault::Code(code)) => {
                push_number(alloc, told, "refused", u64::from(code))?;
                return Ok(false);
            }
            Err(FrameFault::Memory) => bail!("out of memory"),
        }
    }
    bail!("too many frames")
}

/// Tells the frames of a piece, and how many bytes the reader keeps then.
pub fn one_piece(
    alloc: Global,
    reader: &mut FrameReader,
    told: &mut String,
    piece: &[u8],
) -> Result<()> {
    if !feed(alloc, reader, told, piece)? {
        told.push_str("; ")?;
    }
    push_number(alloc, told, "held", reader.held())
}

// Tells the frames of bytes that come in pieces of this length, and where one is refused, how many bytes had come by
// then.
fn in_pieces(alloc: Global, told: &mut String, bytes: &[u8], len: usize) -> Result<Option<u64>> {
    let mut reader = FrameReader::new(alloc)?;
    let mut come = 0u64;
    for piece in bytes.chunks(len.max(1)) {
        come = come.saturating_add(piece.len() as u64);
        if !feed(alloc, &mut reader, told, piece)? {
            return Ok(Some(come));
        }
    }
    push_number(alloc, told, "held", reader.held())?;
    Ok(None)
}

/// Tells the frames of bytes, which are the same in pieces of each length, and by which byte one is refused.
pub fn in_any_cut(alloc: Global, told: &mut String, bytes: &[u8]) -> Result<()> {
    let come = in_pieces(alloc, told, bytes, 1)?;
    for len in 2..=bytes.len().min(MOST) {
        let mut other = String::new(alloc);
        in_pieces(alloc, &mut other, bytes, len)?;
        if other.as_str() != told.as_str() {
            bail!("{told}, but in pieces of {len} {other}");
        }
    }
    match come {
        Some(come) => push_number(alloc, told, " at", come),
        None => Ok(()),
    }
}

// Whether a frame can be written.
fn is_short(frame: &Frame) -> bool
    ensures { result ≡ true → IsShort frame.now }
{
    match frame {
        Frame::Data(_, content, _, _) => content.len() <= 16_384,
        Frame::Headers(_, part, _, _) => part.len() <= 16_384,
        Frame::Continuation(_, part, _) => part.len() <= 16_384,
        Frame::Settings(list) => list.len() <= 2730,
        _ => true,
    }
}

// The bytes of a frame, written seven at a time.
fn written(alloc: Global, frame: &Frame) -> Result<Vec<u8>> {
    if !is_short(frame) {
        bail!("too long a frame");
    }
    let len = frame_len(frame);
    let mut bytes = Vec::new(alloc);
    let mut at = 0;
    for _ in 0..MOST {
        if at >= len {
            return Ok(bytes);
        }
        let mut room = [0u8; 7];
        let count = copy_frame(frame, at, &mut room, 0);
        bytes.extend_from_slice(&room[..count])?;
        at += count;
    }
    bail!("too many bytes")
}

/// Tells a frame, and the bytes that are written for it.
pub fn rewritten(alloc: Global, told: &mut String, bytes: &[u8]) -> Result<()> {
    if bytes.len() > MOST {
        bail!("too many bytes");
    }
    let mut reader = FrameReader::new(alloc)?;
    match reader.feed(bytes) {
        Ok(Step::Got(frame, _)) => {
            push_frame(alloc, told, &frame)?;
            push_hex(alloc, told, "; written", written(alloc, &frame)?.as_slice())
        }
        _ => bail!("no frame"),
    }
}
