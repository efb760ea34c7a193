//! Bytes through a queue of 64 KiB, in pieces of several lengths.

use crate::table::{nanos_since, print_row};
use anyhow::Result;
use px_bytes::ByteQueue;
use std::time::Instant;

/// How many bytes go through.
const TOTAL: u64 = 64 << 20;

const LIMIT: u32 = 65_536;

// The queue stays full: for each piece that comes one leaves.
fn push_all(rt: &HostRuntime, piece: &[u8]) -> Result<u64> {
    let mut queue = ByteQueue::with_limit(rt.alloc(), LIMIT)?;
    let start = Instant::now(rt)?;
    for _ in 0..TOTAL / (piece.len() as u64).max(1) {
        if queue.push(piece).is_err() {
            let oldest = queue.len().min(piece.len() as u32);
            queue.drop_front(oldest);
            let _ = queue.push(piece);
        }
    }
    nanos_since(rt, start)
}

/// A row for each length of the pieces: the bytes.
pub fn measure(rt: &HostRuntime) -> Result<()> {
    for len in [1, 100, 16_384] {
        let piece = vec![in rt.alloc(); b'x'; len]?;
        let nanos = push_all(rt, piece.as_slice())?;
        print_row(rt, "queue", len as u64, nanos, TOTAL)?;
    }
    Ok(())
}
