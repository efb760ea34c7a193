//! Answers of several sizes, read and written.

use crate::table::{nanos_since, print_row};
use anyhow::{Result, bail};
use ext_msgs::{
    Answer, BodyChange, Common, HeaderMutation, Member, NameList, SetField, SetList, read_answer,
    write_answer,
};
use pb_wire::Blob;
use std::alloc::Global;
use std::time::Instant;

/// The sizes of the messages, and how often each is handled.
const SIZES: [(u32, u32); 3] = [(1024, 4096), (65_536, 512), (1_048_576, 64)];

// Fields of about so many bytes.
fn fields(alloc: Global, size: u32) -> Result<SetList> {
    let mut set = SetList::new(alloc);
    for _ in 0..size / 64 {
        set.push(SetField {
            name: Blob::of(alloc, b"x-header-name")?,
            value: Blob::of(alloc, b"a value of some thirty-nine bytes length")?,
            action: 2,
        })?;
    }
    Ok(set)
}

// An answer that sets them.
fn answer(alloc: Global, size: u32) -> Result<Answer> {
    let set = fields(alloc, size)?;
    let remove = NameList::new(alloc);
    let common = Common {
        replace: false,
        headers: HeaderMutation { set, remove },
        body: BodyChange::Absent,
    };
    Ok(Answer {
        member: Member::RequestHeaders(common),
        modes: None,
        timeout: None,
    })
}

// The least time to read it, of so many.
fn read(rt: &HostRuntime, bytes: &[u8], count: u32) -> Result<u64> {
    if bytes.len() > u32::MAX as usize {
        bail!("a message is too long");
    }
    let mut least = u64::MAX;
    for _ in 0..count {
        let start = Instant::now(rt)?;
        let _ = read_answer(rt.alloc(), bytes)?;
        least = least.min(nanos_since(rt, start)?);
    }
    Ok(least)
}

/// A row a size: the bytes of the message.
pub fn measure_read(rt: &HostRuntime) -> Result<()> {
    for (size, count) in SIZES {
        let written = write_answer(rt.alloc(), &answer(rt.alloc(), size)?)?;
        let nanos = read(rt, written.bytes(), count)?;
        let size = written.len() as u64;
        print_row(rt, "read_answer", size, nanos, size)?;
    }
    Ok(())
}

// The least time to write it, of so many, and its length.
fn write(rt: &HostRuntime, answer: &Answer, count: u32) -> Result<(u64, u64)> {
    let mut least = u64::MAX;
    let mut size: u64 = 0;
    for _ in 0..count {
        let start = Instant::now(rt)?;
        size = write_answer(rt.alloc(), answer)?.len() as u64;
        least = least.min(nanos_since(rt, start)?);
    }
    Ok((least, size))
}

/// A row a size: the bytes of the message.
pub fn measure_write(rt: &HostRuntime) -> Result<()> {
    for (size, count) in SIZES {
        let (nanos, size) = write(rt, &answer(rt.alloc(), size)?, count)?;
        print_row(rt, "write_answer", size, nanos, size)?;
    }
    Ok(())
}
