//! Whole exchanges, with a client, an upstream and a processor that answer at once: a small request, and long bodies.

use crate::table::{nanos_since, print_row};
use anyhow::{Result, bail};
use exchange_driver::{Driver, Setup};
use filter_model::{Next, Side, Taken};
use pb_wire::Blob;
use std::alloc::Global;
use std::time::Instant;

/// How many small requests there are.
const REQUESTS: u64 = 10_000;

/// The length of a body that is asked piece by piece.
const STREAMED: u32 = 1 << 20;

/// That of one that is asked at once, and how many exchanges have one.
const BUFFERED: u32 = 65_536;

const TIMES: u64 = 64;

/// That of one that passes.
const PASSED: u32 = 64 << 20;

/// The most bytes that come and go at once.
const PIECE: u32 = 16_384;

/// The most pieces and asks of one exchange.
const MOST: u32 = 1 << 20;

/// The heads of the small exchange.
const GET: &[u8] = b"GET /cart HTTP/1.1\r\nhost: shop\r\n\r\n";

const OK: &[u8] = b"HTTP/1.1 200 OK\r\ncontent-length: 5\r\n\r\nhello";

/// An answer to the headers of a request, which sets `x-a` to `1`, and those to its body and to that of its response.
const SET: &[u8] = b"\x0a\x10\x0a\x0e\x12\x0c\x0a\x0a\x0a\x08\x0a\x03x-a\x1a\x011";

const KEEP_REQUEST: &[u8] = b"\x1a\x00";

const KEEP_RESPONSE: &[u8] = b"\x22\x00";

// A side brings a head.
fn head(alloc: Global, driver: &mut Driver, side: Side, bytes: &[u8]) -> Result<()> {
    let taken = driver.bytes(side, Blob::of(alloc, bytes)?)?;
    if taken as usize != bytes.len() {
        bail!("a head wasn't taken");
    }
    Ok(())
}

// Answers each ask so.
fn answer_all(alloc: Global, driver: &mut Driver, answer: &[u8]) -> Result<()> {
    for _ in 0..MOST {
        let Next::Ask(_) = driver.next()? else {
            break;
        };
        driver.answer(Blob::of(alloc, answer)?)?;
    }
    Ok(())
}

// Gives a side all that waits: how many bytes.
fn give_all(driver: &mut Driver, side: Side) -> Result<u64> {
    let mut given: u64 = 0;
    for _ in 0..MOST {
        let Taken::Piece(bytes) = driver.take(side, PIECE)? else {
            break;
        };
        given = given.saturating_add(bytes.len() as u64);
    }
    Ok(given)
}

// A side brings so many bytes of a body, in pieces of this one, and the other is given what follows: how many bytes.
fn body(
    alloc: Global,
    driver: &mut Driver,
    (from, to): (Side, Side),
    answer: &[u8],
    piece: &[u8],
    length: u32,
) -> Result<u64> {
    let mut given: u64 = 0;
    let mut left = length;
    for _ in 0..MOST {
        if left == 0 {
            break;
        }
        let n = driver.room(from).min(left).min(PIECE);
        let Some(front) = piece.get(..n as usize) else {
            bail!("a short piece");
        };
        let taken = driver.bytes(from, Blob::of(alloc, front)?)?;
        left = left.saturating_sub(taken);
        answer_all(alloc, driver, answer)?;
        given = given.saturating_add(give_all(driver, to)?);
    }
    Ok(given)
}

// A request and its response, both with a body of this length: how many bytes both sides were given.
fn both(
    alloc: Global,
    setup: &Setup,
    heads: (&[u8], &[u8]),
    piece: &[u8],
    length: u32,
) -> Result<u64> {
    let mut driver = setup.exchange()?;
    head(alloc, &mut driver, Side::Client, heads.0)?;
    let up = (Side::Client, Side::Upstream);
    let sent = body(alloc, &mut driver, up, KEEP_REQUEST, piece, length)?;
    head(alloc, &mut driver, Side::Upstream, heads.1)?;
    let down = (Side::Upstream, Side::Client);
    let came = body(alloc, &mut driver, down, KEEP_RESPONSE, piece, length)?;
    Ok(sent.saturating_add(came))
}

// One small request, one answer to its head, and one response.
fn get(alloc: Global, setup: &Setup) -> Result<u64> {
    let mut driver = setup.exchange()?;
    head(alloc, &mut driver, Side::Client, GET)?;
    answer_all(alloc, &mut driver, SET)?;
    let sent = give_all(&mut driver, Side::Upstream)?;
    head(alloc, &mut driver, Side::Upstream, OK)?;
    let came = give_all(&mut driver, Side::Client)?;
    Ok(sent.saturating_add(came))
}

fn tell(rt: &HostRuntime, what: &str, size: u64, nanos: u64, given: u64, parts: u64) -> Result<()> {
    if given < parts {
        bail!("{given} bytes were given");
    }
    print_row(rt, what, size, nanos, parts)
}

fn measure_requests(rt: &HostRuntime) -> Result<()> {
    let setup = Setup::read(
        rt.alloc(),
        "{\"processing_mode\":{\"response_header_mode\":\"SKIP\"}}",
    )?;
    let mut given: u64 = 0;
    let start = Instant::now(rt)?;
    for _ in 0..REQUESTS {
        given = given.saturating_add(get(rt.alloc(), &setup)?);
    }
    let nanos = nanos_since(rt, start)?;
    tell(rt, "a GET", GET.len() as u64, nanos, given, REQUESTS)
}

// The modes of a configuration that asks bodies so, and no heads.
fn asking_bodies(mode: &str) -> &str {
    match mode {
        "streamed" => {
            "{\"processing_mode\":{\"request_header_mode\":\"SKIP\",\"response_header_mode\":\"SKIP\",\
             \"request_body_mode\":\"STREAMED\",\"response_body_mode\":\"STREAMED\"}}"
        }
        "buffered" => {
            "{\"processing_mode\":{\"request_header_mode\":\"SKIP\",\"response_header_mode\":\"SKIP\",\
             \"request_body_mode\":\"BUFFERED\",\"response_body_mode\":\"BUFFERED\"}}"
        }
        _ =>
            "{\"processing_mode\":{\"request_header_mode\":\"SKIP\",\"response_header_mode\":\"SKIP\"}}",
    }
}

// So many exchanges with bodies of this length both ways: a byte.
fn measure_bodies(
    rt: &HostRuntime,
    what: &str,
    piece: &[u8],
    length: u32,
    times: u64,
) -> Result<()> {
    let setup = Setup::read(rt.alloc(), asking_bodies(what))?;
    let (request, response) = heads(rt.alloc(), length)?;
    let heads = (request.bytes(), response.bytes());
    let mut given: u64 = 0;
    let start = Instant::now(rt)?;
    for _ in 0..times {
        given = given.saturating_add(both(rt.alloc(), &setup, heads, piece, length)?);
    }
    let nanos = nanos_since(rt, start)?;
    let parts = u64::from(length).saturating_mul(2).saturating_mul(times);
    tell(rt, what, u64::from(length), nanos, given, parts)
}

// The first lines of a request and of a response with a body of this length.
fn heads(alloc: Global, length: u32) -> Result<(Blob, Blob)> {
    let request = format!(in alloc;
        "POST / HTTP/1.1\r\nhost: shop\r\ncontent-length: {length}\r\n\r\n"
    )?;
    let response = format!(in alloc; "HTTP/1.1 200 OK\r\ncontent-length: {length}\r\n\r\n")?;
    Ok((
        Blob::of(alloc, request.as_bytes())?,
        Blob::of(alloc, response.as_bytes())?,
    ))
}

/// A row for each kind of exchange: a request, and then a byte of both bodies.
pub fn measure(rt: &HostRuntime) -> Result<()> {
    measure_requests(rt)?;
    let bytes = vec![in rt.alloc(); b'x'; PIECE as usize]?;
    let piece = bytes.as_slice();
    measure_bodies(rt, "streamed", piece, STREAMED, 1)?;
    measure_bodies(rt, "buffered", piece, BUFFERED, TIMES)?;
    measure_bodies(rt, "passed", piece, PASSED, 1)
}
