//! Messages of a gRPC call, of 20 bytes and of 64 KiB, read in feeds of several lengths.

use crate::table::{nanos_since, print_row};
use anyhow::{Result, bail};
use ext_msgs::{Field, FieldList};
use grpc_call::{CallReader, frame_of};
use pb_wire::Blob;
use std::alloc::Global;
use std::time::Instant;

/// How many bytes of messages are read, about.
const TOTAL: u32 = 4 << 20;

// A reader behind the response's head.
fn reader(alloc: Global) -> Result<CallReader> {
    let mut fields = FieldList::new(alloc);
    let name = Blob::of(alloc, b":status")?;
    let value = Blob::of(alloc, b"200")?;
    fields.push(Field { name, value })?;
    let mut reader = CallReader::new(alloc, TOTAL);
    reader.head(&fields, false)?;
    Ok(reader)
}

// Messages of one length, behind one another.
fn spelled(alloc: Global, len: u32) -> Result<Vec<u8>> {
    let message = vec![in alloc; b'x'; len as usize]?;
    let frame = frame_of(alloc, message.as_slice())?;
    let mut bytes = Vec::new(alloc);
    for _ in 0..TOTAL / len.max(1) {
        bytes.extend_from_slice(frame.bytes())?;
    }
    Ok(bytes)
}

// How many messages a piece ends.
fn feed(reader: &mut CallReader, piece: &[u8]) -> Result<u64> {
    let mut rest = piece;
    for count in 0..u64::from(TOTAL) {
        if rest.len() > TOTAL as usize {
            bail!("a piece is too long");
        }
        let Some((_message, used)) = reader.data(rest, false)? else {
            return Ok(count);
        };
        let (_, behind) = rest.split_at(used as usize);
        rest = behind;
    }
    bail!("a piece has too many messages")
}

fn read(rt: &HostRuntime, bytes: &[u8], most: usize) -> Result<(u64, u64)> {
    let mut reader = reader(rt.alloc())?;
    let mut count: u64 = 0;
    let start = Instant::now(rt)?;
    for piece in bytes.chunks(most.max(1)) {
        count = count.saturating_add(feed(&mut reader, piece)?);
    }
    Ok((nanos_since(rt, start)?, count))
}

/// A row for each length of feeds, for messages of 20 bytes and then of 64 KiB: the bytes of messages and prefixes.
pub fn measure(rt: &HostRuntime) -> Result<()> {
    for len in [20, 65_536] {
        let bytes = spelled(rt.alloc(), len)?;
        for most in [1, 100, 16_384] {
            let (nanos, count) = read(rt, bytes.as_slice(), most)?;
            if count != u64::from(TOTAL / len.max(1)) {
                bail!("a message is lost");
            }
            print_row(rt, "messages", most as u64, nanos, bytes.len() as u64)?;
        }
    }
    Ok(())
}
