//! Sources and sinks in memory.

use crate::parted;
use anyhow::{Result, bail};
use px_edge::{Failed, MemSink, MemSource, Sink, Source, SureSink, SureSource};
use std::str;

/// A source of a text, of which the call of a number fails.
pub fn source(rt: &HostRuntime, operands: &str, steps: &str) -> Result<()> {
    let (text, failing) = parted(operands);
    let failing = [failing.parse::<u64>()?];
    let mut source = MemSource::new(rt.alloc(), text.as_bytes(), failing.as_slice())?;
    read_all(rt, &mut source, steps)
}

/// A source of a text.
pub fn sure_source(rt: &HostRuntime, text: &str, steps: &str) -> Result<()> {
    let mut source = SureSource::new(rt.alloc(), text.as_bytes())?;
    read_all(rt, &mut source, steps)
}

// The reads of a line. What isn't read yet is shown as points.
fn read_all<S: Source>(rt: &HostRuntime, source: &mut S, steps: &str) -> Result<()> {
    let mut buf = [b'.'; 4];
    for step in steps.split(", ") {
        let size = parted(step).1.parse::<usize>()?.min(4);
        let answer = source.read(&mut buf[..size]);
        let text = str::from_utf8(&buf[..size])?;
        match answer {
            Ok(count) => println!(rt; "read {count}, the buffer is '{text}'")?,
            Err(Failed) => println!(rt; "failed")?,
        }
    }
    Ok(())
}

/// A sink with room, of which the call of a number fails.
pub fn sink(rt: &HostRuntime, operands: &str, steps: &str) -> Result<()> {
    let (room, failing) = parted(operands);
    let failing = [failing.parse::<u64>()?];
    let mut sink = MemSink::new(rt.alloc(), room.parse::<u32>()?, failing.as_slice())?;
    write_all(rt, &mut sink, steps)?;
    tell(rt, sink.bytes())
}

/// A sink with room.
pub fn sure_sink(rt: &HostRuntime, room: &str, steps: &str) -> Result<()> {
    let mut sink = SureSink::new(rt.alloc(), room.parse::<u32>()?)?;
    write_all(rt, &mut sink, steps)?;
    tell(rt, sink.bytes())
}

// The writes of a line.
fn write_all<S: Sink>(rt: &HostRuntime, sink: &mut S, steps: &str) -> Result<()> {
    for step in steps.split(", ") {
        let (_, text) = parted(step);
        match sink.write(text.as_bytes()) {
            Ok(count) => println!(rt; "wrote {count} of '{text}'")?,
            Err(Failed) => println!(rt; "failed at '{text}'")?,
        }
    }
    Ok(())
}

fn tell(rt: &HostRuntime, bytes: &[u8]) -> Result<()> {
    let text = str::from_utf8(bytes)?;
    println!(rt; "the sink has '{text}'")?;
    Ok(())
}
