//! HTTP/1.1: request heads of two sizes, and chunked bodies, in feeds of several lengths.

use crate::table::{nanos_since, print_row};
use anyhow::{Result, bail};
use h1_read::{BodyReader, HeadReader, Piece};
use http_model::Length;
use std::alloc::Global;
use std::time::Instant;

/// The first lines of each head, and the line that makes it longer.
const START: &[u8] =
    b"GET /articles/2026/12/a-common-path?page=2 HTTP/1.1\r\nhost: www.example.com\r\naccept-encoding: gzip\r\n";

const LINE: &[u8] =
    b"accept: text/html,application/xhtml+xml,application/xml;q=0.9,image/avif,image/webp;q=0.8,*/*;q=0.7\r\n";

// A head with so many lines of one kind.
fn head(alloc: Global, lines: u32) -> Result<Vec<u8>> {
    let mut head = Vec::new(alloc);
    head.extend_from_slice(START)?;
    for _ in 0..lines {
        head.extend_from_slice(LINE)?;
    }
    head.extend_from_slice(b"\r\n")?;
    Ok(head)
}

// Whether a reader reads a head in feeds of so many bytes at most.
fn is_read(reader: &mut HeadReader, head: &[u8], most: usize) -> Result<bool> {
    for piece in head.chunks(most.max(1)) {
        if piece.len() >= 0x1_0000_0000 {
            bail!("a piece is too long");
        }
        match reader.feed(piece) {
            Ok(None) => (),
            Ok(Some(_)) => return Ok(true),
            Err(_) => return Ok(false),
        }
    }
    Ok(false)
}

// The least time to read a head in such feeds, of so many.
fn read_head(rt: &HostRuntime, head: &[u8], most: usize, count: u32) -> Result<u64> {
    let mut least = u64::MAX;
    for _ in 0..count {
        let mut reader = HeadReader::request(rt.alloc())?;
        let start = Instant::now(rt)?;
        let is_whole = is_read(&mut reader, head, most)?;
        least = least.min(nanos_since(rt, start)?);
        if !is_whole {
            bail!("a head isn't read");
        }
    }
    Ok(least)
}

/// A row a size, of one feed, and then of feeds of one byte: the bytes of the head.
pub fn measure_heads(rt: &HostRuntime) -> Result<()> {
    for (name, most) in [("head", usize::MAX), ("head by byte", 1)] {
        for (lines, count) in [(1, 16_384), (80, 1024)] {
            let head = head(rt.alloc(), lines)?;
            let size = head.len() as u64;
            let nanos = read_head(rt, head.as_slice(), most, count)?;
            print_row(rt, name, size, nanos, size)?;
        }
    }
    Ok(())
}

/// How many bytes of content a body has.
const CONTENT: u32 = 16 << 20;

// A body in chunks of one length.
fn body(alloc: Global, chunk: u32) -> Result<Vec<u8>> {
    let content = vec![in alloc; b'x'; chunk as usize]?;
    let line = format!(in alloc; "{:x}\r\n", chunk)?;
    let mut body = Vec::new(alloc);
    for _ in 0..CONTENT / chunk.max(1) {
        body.extend_from_slice(line.as_bytes())?;
        body.extend_from_slice(content.as_slice())?;
        body.extend_from_slice(b"\r\n")?;
    }
    body.extend_from_slice(b"0\r\n\r\n")?;
    Ok(body)
}

// How many bytes of content one feed gives, which is fed again until it is used up.
fn feed(reader: &mut BodyReader, bytes: &[u8]) -> Result<u64> {
    let mut rest = bytes;
    let mut content: u64 = 0;
    for _ in 0..u64::MAX {
        if rest.is_empty() {
            break;
        }
        if rest.len() >= 0x1_0000_0000 {
            bail!("a piece is too long");
        }
        let Ok((Piece::Data(_, len), used)) = reader.feed(rest) else {
            return Ok(content);
        };
        content = content.saturating_add(u64::from(len));
        let (_, behind) = rest.split_at(used as usize);
        rest = behind;
    }
    Ok(content)
}

// The nanoseconds to read a body in feeds of so many bytes at most.
fn read_body(rt: &HostRuntime, body: &[u8], most: usize) -> Result<u64> {
    let mut reader = BodyReader::new(rt.alloc(), Length::Chunked)?;
    let mut content: u64 = 0;
    let start = Instant::now(rt)?;
    for piece in body.chunks(most.max(1)) {
        content = content.saturating_add(feed(&mut reader, piece)?);
    }
    let nanos = nanos_since(rt, start)?;
    if reader.end().is_err() || content != u64::from(CONTENT) {
        bail!("a body isn't read");
    }
    Ok(nanos)
}

/// A row for each length of feeds, for bodies in chunks of 16 KiB and then of 1 byte: the bytes of content.
pub fn measure_bodies(rt: &HostRuntime) -> Result<()> {
    for chunk in [16_384, 1] {
        let body = body(rt.alloc(), chunk)?;
        for most in [1 << 30, 16_384, 100, 1] {
            let nanos = read_body(rt, body.as_slice(), most)?;
            print_row(rt, "body", most as u64, nanos, u64::from(CONTENT))?;
        }
    }
    Ok(())
}
