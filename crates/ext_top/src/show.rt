//! One message, or frames of HTTP/2, shown to a person.

ghost use Rattle.std.specs.Prelude.{◌≡◌, ◌≢◌, ◌≤◌, ◌<◌, ◌^◌, ◌++◌, ◌∷◌, [], length, IfOk};
ghost use Rattle.px_edge.specs.Causes.{Rose};
ghost use Rattle.ext_msgs.specs.declared.fault.MsgFault.TheVariants.{Memory};
ghost use Rattle.ext_top.specs.Shows.{Shows, canonical as canonical_text, refused, refused_at as refused_text, refused_wire as refused_bytes, shown, shown_answer, shown_ask};

use crate::show_h2::frames_text;
use crate::status::Status;
use crate::streams::{LINE_LIMIT, Stop, read_line, write_all};
use ext_msgs::{MsgFault, read_answer, read_ask, write_answer, write_ask};
use pb_wire::{Blob, WireFault};
use px_edge::{Sink, Source};
use std::alloc::{AllocError, Global};
use trace_format::read_hex;

/// What the digits of a line are.
#[derive(Clone, Copy)]
pub enum Kind {
    Answer,
    Ask,
    Frames,
}

// A fault's name and the place of its record.
fn refused_at(alloc: Global, name: &[u8], place: u32) -> Result<Vec<u8>, AllocError>
    ensures { IfOk result (λ text. text.items ≡ refused_text name.now place) }
{
    let digits = place.to_string(alloc)?;
    let mut text = b"refused ".to_vec(alloc)?;
    text.extend_from_slice(name)?;
    text.push(b' ')?;
    text.extend_from_slice(digits.as_bytes())?;
    Ok(text)
}

fn refused_wire(alloc: Global, fault: WireFault) -> Result<Vec<u8>, AllocError>
    ensures { IfOk result (λ text. text.items ≡ refused_bytes fault) }
{
    match fault {
        WireFault::Truncated(place) => refused_at(alloc, b"truncated", place),
        WireFault::LongVarint(place) => refused_at(alloc, b"longvarint", place),
        WireFault::BadTag(place) => refused_at(alloc, b"badtag", place),
        WireFault::Group(place) => refused_at(alloc, b"group", place),
    }
}

// Why a message is refused. Out of memory is no refusal.
fn refusal(alloc: Global, fault: MsgFault) -> Result<Vec<u8>, AllocError>
    ensures { IfOk result (λ text. (text.items ≡ refused fault) × (fault ≢ Memory)) }
{
    match fault {
        MsgFault::Wire(fault) => refused_wire(alloc, fault),
        MsgFault::Utf8(place) => refused_at(alloc, b"utf8", place),
        MsgFault::BadNumber(place) => refused_at(alloc, b"badnumber", place),
        MsgFault::NoMember => b"refused nomember".to_vec(alloc),
        MsgFault::Memory => Err(AllocError),
    }
}

fn canonical(alloc: Global, bytes: &Blob) -> Result<Vec<u8>, AllocError>
    ensures { IfOk result (λ text. text.items ≡ canonical_text bytes.now) }
{
    let digits = hex::encode(alloc, bytes.bytes())?;
    let mut text = b"canonical ".to_vec(alloc)?;
    text.extend_from_slice(digits.as_bytes())?;
    Ok(text)
}

// What the bytes of an answer are shown as.
#[tactic(auto, unfolding(crate::specs::Shows::shown_answer))]
fn answer_text(alloc: Global, bytes: &Blob) -> Result<Vec<u8>, AllocError>
    requires { length bytes.now < 2 ^ 32 }
    ensures { IfOk result (λ text. text.items ≡ shown_answer bytes.now) }
{
    match read_answer(alloc, bytes.bytes()) {
        Ok(answer) => {
            let written = write_answer(alloc, &answer)?;
            canonical(alloc, &written)
        }
        Err(fault) => refusal(alloc, fault),
    }
}

// What the bytes of an ask are shown as.
#[tactic(auto, unfolding(crate::specs::Shows::shown_ask))]
fn ask_text(alloc: Global, bytes: &Blob) -> Result<Vec<u8>, AllocError>
    requires { length bytes.now < 2 ^ 32 }
    ensures { IfOk result (λ text. text.items ≡ shown_ask bytes.now) }
{
    match read_ask(alloc, bytes.bytes()) {
        Ok(ask) => {
            let written = write_ask(alloc, &ask)?;
            canonical(alloc, &written)
        }
        Err(fault) => refusal(alloc, fault),
    }
}

// What is written for the bytes.
fn shown_line(alloc: Global, kind: Kind, bytes: &Blob) -> Result<Vec<u8>, AllocError>
    requires { length bytes.now < 2 ^ 32 }
    ensures { IfOk result (λ text. text.items ≡ shown kind bytes.now ++ 10 ∷ []) }
{
    let mut text = match kind {
        Kind::Answer => answer_text(alloc, bytes)?,
        Kind::Ask => ask_text(alloc, bytes)?,
        Kind::Frames => frames_text(alloc, bytes.bytes())?,
    };
    text.push(b'\n')?;
    Ok(text)
}

/// Reads one line of hexadecimal digits, and writes what they are. A message is `canonical` and its canonical
/// spelling, or `refused` with the fault's name and the place of the record that has it. Frames are a line `frame
/// TYPE FLAGS STREAM LENGTH` each, and then `rest` with the number of bytes that are left, or `refused` with the code
/// of the first fault.
pub(crate) fn show<S: Source, K: Sink>(
    alloc: Global,
    kind: Kind,
    source: &mut S,
    sink: &mut K,
) -> Status
    ensures outcome { Shows kind result (S.left source.old) (S.left source.new) (K.written sink.old)
        (K.written sink.new) }
    ensures read { result ≡ Status.ReadFault → Rose (S.faults source.old) (S.faults source.new) }
    ensures write { result ≡ Status.WriteFault → Rose (K.faults sink.old) (K.faults sink.new) }
{
    let line = match read_line(alloc, source, LINE_LIMIT) {
        Ok(Some(line)) => line,
        Ok(None) => return Status::TraceFault(1),
        Err(Stop::Read) => return Status::ReadFault,
        Err(Stop::Memory) => return Status::Memory,
    };
    let bytes = match read_hex(alloc, line.as_slice()) {
        Ok(Some(bytes)) => bytes,
        Ok(None) => return Status::TraceFault(1),
        Err(_) => return Status::Memory,
    };
    let text = match shown_line(alloc, kind, &bytes) {
        Ok(text) => text,
        Err(_) => return Status::Memory,
    };
    match write_all(sink, text.as_slice()) {
        Ok(()) => Status::Done,
        Err(_) => Status::WriteFault,
    }
}
