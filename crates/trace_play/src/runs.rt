//! Commands over sources and sinks in memory.

use crate::configs::tell_fault;
use crate::script::parted;
use anyhow::{Result, bail};
use ext_top::{Status, command, run};
use px_edge::{MemSink, MemSource};
use std::alloc::{AllocError, Global};
use std::str;

/// The room of a sink.
const ROOM: u32 = 4096;

// A run: how it ended, and what was written.
#[derive(Drop)]
struct Outcome {
    status: Status,
    written: Vec<u8>,
}

// The words of a command line.
fn words(alloc: Global, text: &str) -> Result<Vec<&str>, AllocError> {
    let mut words = Vec::new(alloc);
    for word in text.split(' ') {
        words.push(word)?;
    }
    Ok(words)
}

/// Writes what the words ask for.
pub fn tell_command(rt: &HostRuntime, text: &str) -> Result<()> {
    let command = command(words(rt.alloc(), text)?.as_slice());
    println!(rt; "{command:?}")?;
    Ok(())
}

// Runs a command over a source and a sink, calls of which fail.
fn attempt(
    alloc: Global,
    text: &str,
    input: &[u8],
    failing_reads: &[u64],
    failing_writes: &[u64],
    room: u32,
) -> Result<Outcome> {
    let words = words(alloc, text)?;
    let mut source = MemSource::new(alloc, input, failing_reads)?;
    let mut sink = MemSink::new(alloc, room, failing_writes)?;
    let status = run(alloc, words.as_slice(), &mut source, &mut sink);
    let written = sink.bytes().to_vec(alloc)?;
    Ok(Outcome { status, written })
}

// Writes what a run wrote, and how it ended.
fn tell(rt: &HostRuntime, outcome: &Outcome) -> Result<()> {
    let text = str::from_utf8(outcome.written.as_slice())?;
    print!(rt; "{text}")?;
    match &outcome.status {
        Status::TraceFault(line) => println!(rt; "trace fault {line}")?,
        Status::ConfigFault(fault) => tell_fault(rt, fault)?,
        status => println!(rt; "{}", name(status))?,
    }
    Ok(())
}

fn name(status: &Status) -> &'static str {
    match status {
        Status::Done => "done",
        Status::Usage => "usage",
        Status::TraceFault(_) => "trace fault",
        Status::ConfigFault(_) => "configuration fault",
        Status::ReadFault => "read fault",
        Status::WriteFault => "write fault",
        Status::Memory => "memory",
        Status::NotBuilt => "not built",
    }
}

/// `WORD ..`
pub fn run_over(rt: &HostRuntime, text: &str, input: &[u8]) -> Result<()> {
    let outcome = attempt(rt.alloc(), text, input, &[], &[], ROOM)?;
    tell(rt, &outcome)
}

/// `WORD ..`, over all but the last line feed
pub fn run_over_cut(rt: &HostRuntime, text: &str, input: &[u8]) -> Result<()> {
    let (front, _) = input.split_at(input.len().saturating_sub(1));
    run_over(rt, text, front)
}

/// `COUNT WORD ..`, with this room in the sink
pub fn run_with_room(rt: &HostRuntime, operands: &str, input: &[u8]) -> Result<()> {
    let (room, text) = parted(operands);
    let outcome = attempt(rt.alloc(), text, input, &[], &[], room.parse::<u32>()?)?;
    tell(rt, &outcome)
}

/// `WORD ..`, once for each byte of the input, the read of which fails
pub fn fail_reads(rt: &HostRuntime, text: &str, input: &[u8]) -> Result<()> {
    let whole = attempt(rt.alloc(), text, input, &[], &[], ROOM)?;
    tell(rt, &whole)?;
    for n in 0..input.len() as u64 {
        let outcome = attempt(rt.alloc(), text, input, &[n], &[], ROOM)?;
        tell_front(rt, n, &outcome, &whole)?;
    }
    Ok(())
}

/// `COUNT WORD ..`, once for each of the first writes, which fails
pub fn fail_writes(rt: &HostRuntime, operands: &str, input: &[u8]) -> Result<()> {
    let (count, text) = parted(operands);
    let whole = attempt(rt.alloc(), text, input, &[], &[], ROOM)?;
    for n in 0..count.parse::<u64>()? {
        let outcome = attempt(rt.alloc(), text, input, &[], &[n], ROOM)?;
        tell_front(rt, n, &outcome, &whole)?;
    }
    Ok(())
}

// Writes how a run ended of which a call failed. What it wrote has to be a front of what the whole run wrote.
fn tell_front(rt: &HostRuntime, call: u64, outcome: &Outcome, whole: &Outcome) -> Result<()> {
    if !whole
        .written
        .as_slice()
        .starts_with(outcome.written.as_slice())
    {
        bail!("no front of the transcript");
    }
    let status = name(&outcome.status);
    println!(rt;
        "call {call}: {status}, {} bytes written",
        outcome.written.len()
    )?;
    Ok(())
}
