//! DATA frames of 16 KiB, read in feeds of 16 KiB.

use crate::table::{nanos_since, print_row};
use anyhow::{Result, bail};
use h2_frames::{FrameReader, Step};
use std::alloc::Global;
use std::time::Instant;

/// The length of a frame's content, and its nine bytes of head: type DATA, no flags, stream 1.
const LEN: usize = 16_384;

const HEAD: &[u8] = b"\0\x40\0\0\0\0\0\0\x01";

/// How many frames stand behind one another, and how often these are fed: 64 MiB of content.
const FRAMES: u64 = 64;

const ROUNDS: u64 = 64;

fn spelled(alloc: Global) -> Result<Vec<u8>> {
    let content = vec![in alloc; b'x'; LEN]?;
    let mut bytes = Vec::new(alloc);
    for _ in 0..FRAMES {
        bytes.extend_from_slice(HEAD)?;
        bytes.extend_from_slice(content.as_slice())?;
    }
    Ok(bytes)
}

// How many frames the reader gives for a piece, which has the ends of two at most.
fn feed(reader: &mut FrameReader, piece: &[u8]) -> Result<u64> {
    let mut rest = piece;
    for count in 0..3 {
        if rest.len() > LEN {
            bail!("a piece is too long");
        }
        match reader.feed(rest)? {
            Step::Got(_frame, used) => {
                let (_, behind) = rest.split_at(used as usize);
                rest = behind;
            }
            Step::More => return Ok(count),
        }
    }
    Ok(3)
}

/// One row: the frames' bytes.
pub fn measure(rt: &HostRuntime) -> Result<()> {
    let bytes = spelled(rt.alloc())?;
    let mut reader = FrameReader::new(rt.alloc())?;
    let mut count: u64 = 0;
    let start = Instant::now(rt)?;
    for _ in 0..ROUNDS {
        for piece in bytes.as_slice().chunks(LEN) {
            count = count.saturating_add(feed(&mut reader, piece)?);
        }
    }
    let nanos = nanos_since(rt, start)?;
    print_row(rt, "frames", count, nanos, FRAMES * ROUNDS * LEN as u64)
}
