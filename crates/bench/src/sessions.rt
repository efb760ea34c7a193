//! A server's session that is fed: frames for 1, 64 and 256 live streams in turn, and 64 MiB on one stream.

use crate::table::{nanos_since, print_row};
use anyhow::{Result, bail};
use h2_session::{Event, Session};
use std::alloc::Global;
use std::time::Instant;

const PREFACE: &[u8] = b"PRI * HTTP/2.0\r\n\r\nSM\r\n\r\n";

pub(crate) const DATA: u8 = 0;

pub(crate) const HEADERS: u8 = 1;

pub(crate) const SETTINGS: u8 = 4;

const WINDOW_UPDATE: u8 = 8;

pub(crate) const END_HEADERS: u8 = 4;

/// `:method: GET`, a whole field block.
pub(crate) const GET: &[u8] = b"\x82";

/// How many frames a row has, about.
const FRAMES: u64 = 400_000;

/// The longest payload, and how many of them make 64 MiB.
const PART: usize = 16_384;

const PARTS: u64 = 4_096;

/// The most bytes of a piece that is fed at once.
const MOST: usize = 1 << 20;

/// Appends a frame.
pub(crate) fn push_frame(
    bytes: &mut Vec<u8>,
    kind: u8,
    flags: u8,
    stream: u32,
    payload: &[u8],
) -> Result<()> {
    let size = u32::try_from(payload.len())?.to_be_bytes();
    bytes.extend_from_slice(&[size[1], size[2], size[3], kind, flags])?;
    bytes.extend_from_slice(stream.to_be_bytes().as_slice())?;
    bytes.extend_from_slice(payload)?;
    Ok(())
}

// Feeds all bytes, takes all that goes out, and counts what was brought.
fn feed(session: &mut Session, bytes: &[u8]) -> Result<u64> {
    let mut room = [0u8; 512];
    let mut rest = bytes;
    for brought in 0..MOST as u64 {
        if rest.len() > MOST {
            bail!("a piece is too long");
        }
        let Ok(fed) = session.feed(rest) else {
            bail!("a frame was refused");
        };
        session.take(&mut room[..512]);
        let (_, behind) = rest.split_at(fed.used as usize);
        rest = behind;
        if let Event::Nothing = fed.event {
            return Ok(brought);
        }
    }
    bail!("a piece brings too much")
}

/// A server's end with so many streams open.
pub(crate) fn server_with(alloc: Global, live: u32) -> Result<Session> {
    let mut bytes = PREFACE.to_vec(alloc)?;
    push_frame(&mut bytes, SETTINGS, 0, 0, b"")?;
    let mut stream: u32 = 1;
    for _ in 0..live {
        push_frame(&mut bytes, HEADERS, END_HEADERS, stream, GET)?;
        stream = stream.saturating_add(2);
    }
    let mut server = Session::server(alloc)?;
    feed(&mut server, bytes.as_slice())?;
    Ok(server)
}

// DATA of 16 bytes and a window update for each stream.
fn round(alloc: Global, live: u32) -> Result<Vec<u8>> {
    let mut bytes = Vec::new(alloc);
    let mut stream: u32 = 1;
    for _ in 0..live {
        push_frame(&mut bytes, DATA, 0, stream, b"0123456789abcdef")?;
        push_frame(&mut bytes, WINDOW_UPDATE, 0, stream, b"\x00\x00\x00\x10")?;
        stream = stream.saturating_add(2);
    }
    Ok(bytes)
}

// The time to feed a session so often.
fn feed_often(
    rt: &HostRuntime,
    session: &mut Session,
    bytes: &[u8],
    rounds: u64,
    brings: u64,
) -> Result<u64> {
    let start = Instant::now(rt)?;
    for _ in 0..rounds {
        if feed(session, bytes)? != brings {
            bail!("a round brings something else");
        }
    }
    nanos_since(rt, start)
}

// A row: the frames.
fn measure_frames(rt: &HostRuntime, live: u32) -> Result<()> {
    let mut server = server_with(rt.alloc(), live)?;
    let bytes = round(rt.alloc(), live)?;
    let live = u64::from(live);
    let rounds = FRAMES / (live * 2).max(1);
    let nanos = feed_often(rt, &mut server, bytes.as_slice(), rounds, live)?;
    print_row(rt, "frames, streams", live, nanos, rounds * live * 2)
}

// A row: the bytes.
fn measure_stream(rt: &HostRuntime) -> Result<()> {
    let mut server = server_with(rt.alloc(), 1)?;
    let content = vec![in rt.alloc(); b'x'; PART]?;
    let mut bytes = Vec::new(rt.alloc());
    push_frame(&mut bytes, DATA, 0, 1, content.as_slice())?;
    let nanos = feed_often(rt, &mut server, bytes.as_slice(), PARTS, 1)?;
    print_row(
        rt,
        "bytes, one stream",
        PARTS * PART as u64,
        nanos,
        PARTS * PART as u64,
    )
}

/// A row for each number of live streams, and one for 64 MiB.
pub fn measure(rt: &HostRuntime) -> Result<()> {
    for live in [1, 64, 256] {
        measure_frames(rt, live)?;
    }
    measure_stream(rt)
}
