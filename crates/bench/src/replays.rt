//! Replays of long message traces, in memory.

use crate::table::{nanos_since, print_row};
use anyhow::{Result, bail};
use ext_top::{Status, run};
use px_edge::{SureSink, SureSource};
use std::alloc::{AllocError, Global};
use std::time::Instant;

/// The bytes of a body that a line brings.
const PIECE: u32 = 16_384;

/// How many lines bring pieces of the bodies: traces of 10 MB and of 100 MB.
const FEW: u32 = 305;

const MANY: u32 = 3_052;

/// The lines before those that bring pieces: an exchange of which nothing is asked, and the head of its request.
const FIRST: &str = "\
trace 1 messages
config {\"processing_mode\":{\"request_header_mode\":\"SKIP\",\"response_header_mode\":\"SKIP\"}}
open
client 1 504f5354202f20485454502f312e310d0a686f73743a2073686f700d0a\
7472616e736665722d656e636f64696e673a206368756e6b65640d0a0d0a
";

/// A line that brings the size of a chunk of 16,384 bytes, and what ends that chunk.
const SIZE: &str = "client 1 343030300d0a\n";

const CRLF: &str = "client 1 0d0a\n";

// Appends the lines of a chunk.
fn push_chunk(trace: &mut Vec<u8>) -> Result<(), AllocError> {
    trace.extend_from_slice(SIZE.as_bytes())?;
    trace.extend_from_slice(b"client 1 ")?;
    for _ in 0..PIECE {
        trace.extend_from_slice(b"78")?;
    }
    trace.push(b'\n')?;
    trace.extend_from_slice(CRLF.as_bytes())
}

// The trace of a request with so many chunks.
fn trace(alloc: Global, chunks: u32) -> Result<Vec<u8>, AllocError> {
    let mut trace = Vec::new(alloc);
    trace.extend_from_slice(FIRST.as_bytes())?;
    for _ in 0..chunks {
        push_chunk(&mut trace)?;
    }
    trace.extend_from_slice(b"stop\n")?;
    Ok(trace)
}

// A replay: a byte of the trace.
fn measure_one(rt: &HostRuntime, chunks: u32) -> Result<()> {
    let bytes = trace(rt.alloc(), chunks)?;
    let size = bytes.len() as u64;
    let mut source = SureSource::new(rt.alloc(), bytes.as_slice())?;
    // What goes to the upstream is about as long.
    let mut sink = SureSink::new(rt.alloc(), chunks.saturating_mul(3 * PIECE))?;
    let start = Instant::now(rt)?;
    let status = run(rt.alloc(), &["replay"], &mut source, &mut sink);
    let nanos = nanos_since(rt, start)?;
    let Status::Done = status else {
        bail!("the trace wasn't played");
    };
    if (sink.bytes().len() as u64) < u64::from(chunks).saturating_mul(2 * u64::from(PIECE)) {
        bail!("a short transcript");
    }
    print_row(rt, "replay", size, nanos, size)
}

/// A row for a trace of 10 MB, and one for a trace of 100 MB.
pub fn measure(rt: &HostRuntime) -> Result<()> {
    measure_one(rt, FEW)?;
    measure_one(rt, MANY)
}
