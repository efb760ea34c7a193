//! The lines of a script.

use crate::operands::{bytes_of, fields_of};
use anyhow::{Result, bail};
use grpc_call::{CallFault, CallReader, call_head, frame_of};

/// The most bytes of a line.
const MOST: usize = 1_000_000;

/// Plays a line.
pub fn line(rt: &HostRuntime, reader: &mut CallReader, line: &str) -> Result<()> {
    let (word, operands) = line.split_once(' ').unwrap_or((line, ""));
    match word {
        "call" => call(rt, operands),
        "frame" => frame(rt, operands),
        "reader" => {
            *reader = CallReader::new(rt.alloc(), operands.parse::<u32>()?);
            Ok(())
        }
        "head" => block(rt, reader, operands, false),
        "last" => block(rt, reader, operands, true),
        "data" => give(
            rt,
            reader,
            bytes_of(rt.alloc(), operands)?.as_slice(),
            false,
        ),
        "end" => give(rt, reader, bytes_of(rt.alloc(), operands)?.as_slice(), true),
        "bytes" => give_each(rt, reader, bytes_of(rt.alloc(), operands)?.as_slice()),
        "held" => tell(rt, "held", reader.held()),
        _ => Ok(println!(rt; "{line}")?),
    }
}

// An answer and its number.
fn tell(rt: &HostRuntime, what: &str, number: u64) -> Result<()> {
    Ok(println!(rt; "{what} {number}")?)
}

// Bytes, by their digits.
fn tell_bytes(rt: &HostRuntime, what: &str, bytes: &[u8]) -> Result<()> {
    let digits = hex::encode(rt.alloc(), bytes)?;
    Ok(println!(rt; "{what} {digits}")?)
}

fn tell_fault(rt: &HostRuntime, fault: CallFault) -> Result<()> {
    Ok(println!(rt; "refused: {fault}")?)
}

fn call(rt: &HostRuntime, authority: &str) -> Result<()> {
    let fields = call_head(rt.alloc(), authority.as_bytes())?;
    for field in fields.as_slice() {
        tell_bytes(rt, "name", field.name.bytes())?;
        tell_bytes(rt, "value", field.value.bytes())?;
    }
    Ok(())
}

fn frame(rt: &HostRuntime, digits: &str) -> Result<()> {
    let message = bytes_of(rt.alloc(), digits)?;
    if message.len() > MOST {
        bail!("a message is too long");
    }
    tell_bytes(
        rt,
        "frame",
        frame_of(rt.alloc(), message.as_slice())?.bytes(),
    )
}

fn block(rt: &HostRuntime, reader: &mut CallReader, words: &str, ends: bool) -> Result<()> {
    let fields = fields_of(rt.alloc(), words)?;
    match reader.head(&fields, ends) {
        Ok(Some(status)) => tell(rt, "status", u64::from(status)),
        Ok(None) => tell(rt, "goes on, held", reader.held()),
        Err(fault) => tell_fault(rt, fault),
    }
}

// DATA, given again behind each message that it ends.
fn give(rt: &HostRuntime, reader: &mut CallReader, bytes: &[u8], ends: bool) -> Result<()> {
    let mut rest = bytes;
    for _ in 0..MOST {
        if rest.len() > MOST {
            bail!("a line is too long");
        }
        match reader.data(rest, ends) {
            Ok(Some((message, used))) => {
                tell_bytes(rt, "message", message.bytes())?;
                let (_, behind) = rest.split_at(used as usize);
                rest = behind;
            }
            Ok(None) => return tell(rt, "goes on, held", reader.held()),
            Err(fault) => return tell_fault(rt, fault),
        }
    }
    bail!("too many messages")
}

fn give_each(rt: &HostRuntime, reader: &mut CallReader, bytes: &[u8]) -> Result<()> {
    for byte in bytes.chunks(1) {
        give(rt, reader, byte, false)?;
    }
    Ok(())
}
