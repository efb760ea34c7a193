//! Lines of traces and of transcripts.

use crate::script::parted;
use anyhow::{Result, bail};
use pb_wire::Blob;
use std::alloc::Global;
use std::str;
use trace_format::{LineFault, OutLine, read_line, write_line};

/// Reads a line of a trace, and writes what it says.
pub fn read(rt: &HostRuntime, text: &[u8]) -> Result<()> {
    match read_line(rt.alloc(), text) {
        Ok(line) => println!(rt; "{line:?}")?,
        Err(LineFault::Bad) => println!(rt; "bad")?,
        Err(LineFault::Memory) => bail!("out of memory"),
    }
    Ok(())
}

/// The same of a line by its digits.
pub fn read_bytes(rt: &HostRuntime, digits: &str) -> Result<()> {
    read(rt, bytes(rt.alloc(), digits)?.bytes())
}

fn bytes(alloc: Global, digits: &str) -> Result<Blob> {
    match hex::decode(alloc, digits) {
        Ok(bytes) => Ok(Blob::from_vec(bytes)),
        Err(_) => bail!("no bytes: {digits}"),
    }
}

/// Writes the line of bytes for an upstream.
pub fn write_to_up(rt: &HostRuntime, operands: &str) -> Result<()> {
    let (exchange, digits) = parted(operands);
    let bytes = bytes(rt.alloc(), digits)?;
    write(rt, &OutLine::ToUp(exchange.parse::<u32>()?, bytes))
}

/// Writes the line of a client's link that was aborted.
pub fn write_abort_client(rt: &HostRuntime, exchange: &str) -> Result<()> {
    write(rt, &OutLine::AbortClient(exchange.parse::<u32>()?))
}

fn write(rt: &HostRuntime, line: &OutLine) -> Result<()> {
    let text = write_line(rt.alloc(), line)?;
    let text = str::from_utf8(text.bytes())?;
    println!(rt; "{text}")?;
    Ok(())
}
