//! Frames of HTTP/2, shown to a person.

ghost use Rattle.std.specs.Prelude.{◌≡◌, ◌≤◌, ◌<◌, ◌^◌, ◌++◌, ◌%◌, ◌∷◌, [], length, IfOk, OnOk};
ghost use Rattle.h2_frames.specs.Numbers.{u24_at, u32_at};
ghost use Rattle.ext_top.specs.ShownFrames.{Begins, four, frame_line, shown_h2, spaced};

use h2_frames::{FrameFault, FrameReader, Step};
use std::alloc::{AllocError, Global};

// A number behind a space.
fn add_number(text: &mut Vec<u8>, n: u32) -> Result<(), AllocError>
    ensures { OnOk result (text.new.items ≡ text.old.items ++ spaced n) }
{
    let digits = n.to_string(*text.allocator())?;
    text.push(b' ')?;
    text.extend_from_slice(digits.as_bytes())?;
    Ok(())
}

// A line of four numbers.
fn add_line(
    text: &mut Vec<u8>,
    kind: u32,
    flags: u32,
    stream: u32,
    size: u32,
) -> Result<(), AllocError>
    ensures { OnOk result (text.new.items ≡ text.old.items ++ (four kind flags stream size ++ 10 ∷ [])) }
{
    text.extend_from_slice(b"frame")?;
    add_number(text, kind)?;
    add_number(text, flags)?;
    add_number(text, stream)?;
    add_number(text, size)?;
    text.push(b'\n')?;
    Ok(())
}

fn stream_of(bytes: &[u8]) -> u32
    requires { 9 ≤ length bytes.now }
    ensures { result ≡ u32_at bytes.now 5 % 2 ^ 31 }
{
    u32::from_be_bytes([bytes[5], bytes[6], bytes[7], bytes[8]]) % (1 << 31)
}

fn size_of(bytes: &[u8]) -> u32
    requires { 9 ≤ length bytes.now }
    ensures { result ≡ u24_at bytes.now 0 }
{
    u32::from_be_bytes([0, bytes[0], bytes[1], bytes[2]])
}

// The line of the frame that the bytes begin with.
#[tactic(auto, unfolding(h2_frames::specs::Headers::header_of))]
fn add_frame(text: &mut Vec<u8>, bytes: &[u8]) -> Result<(), AllocError>
    requires { 9 ≤ length bytes.now }
    ensures { OnOk result (text.new.items ≡ text.old.items ++ (frame_line bytes.now ++ 10 ∷ [])) }
{
    let (kind, flags) = (u32::from(bytes[3]), u32::from(bytes[4]));
    add_line(text, kind, flags, stream_of(bytes), size_of(bytes))
}

// The last line, without its line feed.
fn ended(text: Vec<u8>, word: &[u8], n: u32) -> Result<Vec<u8>, AllocError>
    ensures { IfOk result (λ all. all.items ≡ text.items ++ (word.now ++ spaced n)) }
{
    let mut text = text;
    text.extend_from_slice(word)?;
    add_number(&mut text, n)?;
    Ok(text)
}

// What bytes begin with: a frame of so many bytes, none that is whole, or one that is refused with a code.
enum Begin {
    Frame(u32),
    Unfinished,
    Refused(u32),
}

fn next(reader: &mut FrameReader, bytes: &[u8]) -> Result<Begin, AllocError>
    requires fresh { reader.old ≡ [] }
    requires small { length bytes.now < 2 ^ 32 }
    ensures { IfOk result (λ b. Begins bytes.now b reader.new) }
{
    match reader.feed(bytes) {
        Ok(Step::Got(_, used)) => Ok(Begin::Frame(used)),
        Ok(Step::More) => Ok(Begin::Unfinished),
        Err(FrameFault::Code(code)) => Ok(Begin::Refused(code)),
        Err(FrameFault::Memory) => Err(AllocError),
    }
}

/// What the bytes of frames are shown as.
pub(crate) fn frames_text(alloc: Global, bytes: &[u8]) -> Result<Vec<u8>, AllocError>
    requires { length bytes.now < 2 ^ 32 }
    ensures { IfOk result (λ text. text.items ≡ shown_h2 bytes.now) }
{
    let mut reader = FrameReader::new(alloc)?;
    let mut text = Vec::new(alloc);
    let mut rest = bytes;
    // Prover: the label names the loop in its proof.
    'frames: while !rest.is_empty() {
        match next(&mut reader, rest)? {
            Begin::Frame(len) => {
                add_frame(&mut text, rest)?;
                let (_, behind) = rest.split_at(len as usize);
                rest = behind;
            }
            Begin::Unfinished => return ended(text, b"rest", rest.len() as u32),
            Begin::Refused(code) => return ended(text, b"refused", code),
        }
    }
    ended(text, b"rest", 0)
}
