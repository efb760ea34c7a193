//! The lines of a transcript.
//!
//! | line | what it tells |
//! |---|---|
//! | `to-client X HEX`, `to-up X HEX` | bytes that the client or the upstream of exchange X got |
//! | `ask X HEX` | a message to the processor |
//! | `finish X`, `reset X` | the end of the processor's stream |
//! | `done client X`, `abort client X`, `done up X`, `abort up X` | that link is done, or was aborted |
//! | `to-ext HEX`, `abort ext` | the processor's link itself |
//! | `full` | an opening was refused |
//! | `end` | the trace was played |

ghost use Rattle.std.specs.Prelude.{◌≡◌, ◌++◌, ◌∷◌, codes, IfOk, OnOk};
ghost use Rattle.std.specs.Fmt.{decimal};
ghost use Rattle.hex.specs.Hex.{encode_lower};
ghost use Rattle.trace_format.specs.Transcripts.{text_of};

use pb_wire::Blob;
use std::alloc::{AllocError, Global};

/// A line of a transcript. The number is that of an exchange.
#[derive(Drop)]
pub enum OutLine {
    ToClient(u32, Blob),
    ToUp(u32, Blob),
    Ask(u32, Blob),
    Finish(u32),
    Reset(u32),
    DoneClient(u32),
    AbortClient(u32),
    DoneUp(u32),
    AbortUp(u32),
    ToExt(Blob),
    AbortExt,
    Full,
    End,
}

// Appends the hexadecimal digits of bytes.
fn push_hex(alloc: Global, text: &mut Vec<u8>, bytes: &Blob) -> Result<(), AllocError>
    ensures { OnOk result (text.new.items ≡ text.old.items ++ encode_lower bytes.now) }
{
    let digits = hex::encode(alloc, bytes.bytes())?;
    text.extend_from_slice(digits.as_bytes())?;
    Ok(())
}

// A word, which has its space, and the number of an exchange.
fn numbered(alloc: Global, word: &[u8], x: u32) -> Result<Vec<u8>, AllocError>
    ensures { IfOk result (λ text. text.items ≡ word.now ++ decimal x) }
{
    let digits = x.to_string(alloc)?;
    let mut text = word.to_vec(alloc)?;
    text.extend_from_slice(digits.as_bytes())?;
    Ok(text)
}

// The same, and bytes behind a space.
fn with_bytes(alloc: Global, word: &[u8], x: u32, bytes: &Blob) -> Result<Vec<u8>, AllocError>
    ensures { IfOk result (λ text. text.items ≡ word.now ++ (decimal x ++ 32 ∷ encode_lower bytes.now)) }
{
    let mut text = numbered(alloc, word, x)?;
    text.push(b' ')?;
    push_hex(alloc, &mut text, bytes)?;
    Ok(text)
}

fn to_ext(alloc: Global, bytes: &Blob) -> Result<Vec<u8>, AllocError>
    ensures { IfOk result (λ text. text.items ≡ codes "to-ext " ++ encode_lower bytes.now) }
{
    let mut text = b"to-ext ".to_vec(alloc)?;
    push_hex(alloc, &mut text, bytes)?;
    Ok(text)
}

// The bytes of a line.
fn spelled(alloc: Global, line: &OutLine) -> Result<Vec<u8>, AllocError>
    ensures { IfOk result (λ text. text.items ≡ text_of line.now) }
{
    match line {
        OutLine::ToClient(x, bytes) => with_bytes(alloc, b"to-client ", *x, bytes),
        OutLine::ToUp(x, bytes) => with_bytes(alloc, b"to-up ", *x, bytes),
        OutLine::Ask(x, bytes) => with_bytes(alloc, b"ask ", *x, bytes),
        OutLine::Finish(x) => numbered(alloc, b"finish ", *x),
        OutLine::Reset(x) => numbered(alloc, b"reset ", *x),
        OutLine::DoneClient(x) => numbered(alloc, b"done client ", *x),
        OutLine::AbortClient(x) => numbered(alloc, b"abort client ", *x),
        OutLine::DoneUp(x) => numbered(alloc, b"done up ", *x),
        OutLine::AbortUp(x) => numbered(alloc, b"abort up ", *x),
        OutLine::ToExt(bytes) => to_ext(alloc, bytes),
        OutLine::AbortExt => b"abort ext".to_vec(alloc),
        OutLine::Full => b"full".to_vec(alloc),
        OutLine::End => b"end".to_vec(alloc),
    }
}

/// The text of a line, without its line feed.
pub fn write_line(alloc: Global, line: &OutLine) -> Result<Blob, AllocError>
    ensures { IfOk result (λ blob. blob ≡ text_of line.now) }
{
    Ok(Blob::from_vec(spelled(alloc, line)?))
}
