//! A server's session that is flooded while nothing is taken: what a frame costs once so many wait to go out.

use crate::sessions::{DATA, END_HEADERS, GET, HEADERS, SETTINGS, push_frame, server_with};
use crate::table::{nanos_since, print_row};
use anyhow::{Result, bail};
use h2_session::Session;
use std::alloc::Global;
use std::time::Instant;

const RST_STREAM: u8 = 3;

const PING: u8 = 6;

const END_STREAM: u8 = 1;

/// The number of streams that a server lets its peer open.
const FULL: u32 = 256;

/// How many frames of a flood are measured, or pairs of frames, and in how many sessions.
const FRAMES: u32 = 1_000;

const ROUNDS: u32 = 20;

/// The most bytes that are fed at once.
const MOST: usize = 1 << 20;

/// What a peer floods with.
#[derive(Clone, Copy)]
enum Flood {
    Pings,
    Settings,
    /// HEADERS above the number of streams that it may open.
    Refused,
    /// DATA on streams that it ended.
    Faults,
    /// HEADERS and RST_STREAM.
    Resets,
}

// One frame of a flood, or a pair on a stream of their own.
fn push(bytes: &mut Vec<u8>, flood: Flood, stream: u32) -> Result<()> {
    match flood {
        Flood::Pings => push_frame(bytes, PING, 0, 0, b"01234567"),
        Flood::Settings => push_frame(bytes, SETTINGS, 0, 0, b""),
        Flood::Refused => push_frame(bytes, HEADERS, END_HEADERS, stream, GET),
        Flood::Faults => {
            push_frame(bytes, HEADERS, END_HEADERS | END_STREAM, stream, GET)?;
            push_frame(bytes, DATA, 0, stream, b"x")
        }
        Flood::Resets => {
            push_frame(bytes, HEADERS, END_HEADERS, stream, GET)?;
            push_frame(bytes, RST_STREAM, 0, stream, b"\x00\x00\x00\x08")
        }
    }
}

// So many of them, from a stream on.
fn flood_of(alloc: Global, flood: Flood, from: u32, count: u32) -> Result<Vec<u8>> {
    let mut bytes = Vec::new(alloc);
    let mut stream = from;
    for _ in 0..count {
        push(&mut bytes, flood, stream)?;
        stream = stream.saturating_add(2);
    }
    Ok(bytes)
}

fn feed(session: &mut Session, bytes: &[u8]) -> Result<()> {
    let mut rest = bytes;
    for _ in 0..=MOST {
        if rest.is_empty() {
            return Ok(());
        }
        if rest.len() > MOST {
            bail!("a piece is too long");
        }
        let Ok(fed) = session.feed(rest) else {
            bail!("a frame was refused");
        };
        let (_, behind) = rest.split_at(fed.used as usize);
        rest = behind;
    }
    bail!("a piece brings too much")
}

// A row: the frames, or pairs of them, behind so many that wait.
fn measure_flood(
    rt: &HostRuntime,
    what: &str,
    flood: Flood,
    before: Flood,
    waiting: u32,
) -> Result<()> {
    let live = if let Flood::Refused = flood { FULL } else { 0 };
    let from = live * 2 + 1;
    let setup = flood_of(rt.alloc(), before, from, waiting)?;
    let next = from.saturating_add(waiting.saturating_mul(2));
    let bytes = flood_of(rt.alloc(), flood, next, FRAMES)?;
    let mut nanos: u64 = 0;
    for _ in 0..ROUNDS {
        let mut server = server_with(rt.alloc(), live)?;
        feed(&mut server, setup.as_slice())?;
        let start = Instant::now(rt)?;
        feed(&mut server, bytes.as_slice())?;
        nanos = nanos.saturating_add(nanos_since(rt, start)?);
    }
    print_row(
        rt,
        what,
        u64::from(waiting),
        nanos,
        u64::from(ROUNDS * FRAMES),
    )
}

// A row: what is asked of a stream behind so many frames that wait, for each of so many streams.
fn measure_questions(rt: &HostRuntime, waiting: u32) -> Result<()> {
    let from = FULL * 2 + 1;
    let setup = flood_of(rt.alloc(), Flood::Refused, from, waiting)?;
    let mut server = server_with(rt.alloc(), FULL)?;
    feed(&mut server, setup.as_slice())?;
    let mut found: u64 = 0;
    let start = Instant::now(rt)?;
    for round in 0..ROUNDS * FRAMES {
        let stream = from.saturating_add((round % FRAMES) * 2);
        if server.waits(stream) && server.waiting(stream) == 0 {
            found = found.saturating_add(1);
        }
    }
    let nanos = nanos_since(rt, start)?;
    let asked = u64::from(ROUNDS * FRAMES);
    if found != asked {
        bail!("a frame doesn't wait");
    }
    print_row(rt, "questions", u64::from(waiting), nanos, asked)
}

/// Two rows for each flood, and for questions behind frames that wait. Resets of a peer leave no frame, so they come
/// behind PINGs.
pub fn measure(rt: &HostRuntime) -> Result<()> {
    for waiting in [1_000, 7_000] {
        measure_flood(rt, "pings", Flood::Pings, Flood::Pings, waiting)?;
        measure_flood(rt, "settings", Flood::Settings, Flood::Settings, waiting)?;
        measure_flood(rt, "refused", Flood::Refused, Flood::Refused, waiting)?;
        measure_flood(rt, "faults", Flood::Faults, Flood::Faults, waiting)?;
        measure_flood(rt, "resets", Flood::Resets, Flood::Pings, waiting)?;
        measure_questions(rt, waiting)?;
    }
    Ok(())
}
