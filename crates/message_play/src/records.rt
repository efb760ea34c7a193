//! Records of the wire format.

use crate::operands;
use anyhow::{Result, bail};
use pb_wire::{Duplicate, Payload, Reader, Record, Writer};
use std::alloc::{AllocError, Global};

/// The most records of a line.
const MOST: usize = 1000;

/// `HEX`
pub fn read(rt: &HostRuntime, digits: &str) -> Result<()> {
    let bytes = operands::bytes(rt.alloc(), digits)?;
    let mut reader = Reader::new(bytes.as_slice());
    tell_all(rt, &mut reader)
}

/// `START LENGTH HEX`
pub fn read_part(rt: &HostRuntime, operands: &str) -> Result<()> {
    let (start, rest) = operands.split_once(' ').unwrap_or((operands, ""));
    let (len, digits) = rest.split_once(' ').unwrap_or((rest, ""));
    let bytes = operands::bytes(rt.alloc(), digits)?;
    let start = start.parse::<u32>()?;
    let len = len.parse::<u32>()?;
    if (bytes.len() as u64) < u64::from(start) + u64::from(len) {
        bail!("no such part");
    }
    let mut reader = Reader::within(bytes.as_slice(), start, len);
    tell_all(rt, &mut reader)
}

// Writes all records, and what the reader answers after the last.
fn tell_all(rt: &HostRuntime, reader: &mut Reader) -> Result<()> {
    for _ in 0..MOST {
        if !tell(rt, reader)? {
            tell(rt, reader)?;
            return Ok(());
        }
    }
    bail!("too many records")
}

// Writes the next record, and says whether there is one.
fn tell(rt: &HostRuntime, reader: &mut Reader) -> Result<bool> {
    match reader.next() {
        Ok(Some(record)) => {
            let payload = shown(rt.alloc(), record.payload)?;
            println!(rt; "at {} field {} {payload}", record.place, record.number)?;
            Ok(true)
        }
        Ok(None) => {
            println!(rt; "end")?;
            Ok(false)
        }
        Err(fault) => {
            println!(rt; "refused: {fault}")?;
            Ok(false)
        }
    }
}

fn shown(alloc: Global, payload: Payload) -> Result<String, AllocError> {
    match payload {
        Payload::Varint(n) => format!(in alloc; "varint {n}"),
        Payload::Fixed64(n) => format!(in alloc; "fixed64 {n}"),
        Payload::Span(start, len) => format!(in alloc; "bytes at {start} length {len}"),
        Payload::Fixed32(n) => format!(in alloc; "fixed32 {n}"),
    }
}

/// `varint NUMBER VALUE, bytes NUMBER HEX, ..`; what is written is a copy.
pub fn spell(rt: &HostRuntime, operands: &str) -> Result<()> {
    let mut writer = Writer::new(rt.alloc());
    for record in operands.split(", ") {
        let (kind, rest) = record.split_once(' ').unwrap_or((record, ""));
        let (number, value) = rest.split_once(' ').unwrap_or((rest, ""));
        put(rt.alloc(), &mut writer, kind, number.parse::<u32>()?, value)?;
    }
    let digits = hex::encode(rt.alloc(), writer.done().copy()?.bytes())?;
    println!(rt; "spelled {digits}")?;
    Ok(())
}

fn put(alloc: Global, writer: &mut Writer, kind: &str, number: u32, value: &str) -> Result<()> {
    if number == 0 || number > 536_870_911 {
        bail!("no field's number");
    }
    match kind {
        "varint" => writer.varint(number, value.parse::<u64>()?)?,
        "bytes" => writer.bytes(number, operands::bytes(alloc, value)?.as_slice())?,
        _ => bail!("no record: {kind}"),
    }
    Ok(())
}
