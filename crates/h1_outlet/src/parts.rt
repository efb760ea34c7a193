//! A part of a message, and its bytes.

ghost use Rattle.std.specs.Prelude.{◌≡◌, ◌<◌, true, length, IfOk, OnErr};
ghost use Rattle.http_model.specs.Wire.{head_bytes, interim, last_bytes as last};
ghost use Rattle.h1_outlet.specs.Parts.{framing_with, trailers_with, chunk_way, data_way, has_bytes, is_chunked, written_way};
ghost use Rattle.h1_outlet.specs.Ways.{plain};

use crate::going::Going;
use ext_msgs::FieldList;
use h1_write::{chunk_bytes, last_bytes, request_bytes, response_bytes};
use http_model::{Direction, Framing, Out};
use pb_wire::Blob;
use std::alloc::{AllocError, Global};
use std::mem;

// What is known of the framing once this part was put too.
pub(crate) fn framing_with(framing: Option<Framing>, out: &Out) -> Option<Framing>
    ensures { result ≡ framing_with framing out.now }
{
    match out {
        Out::Head(_, own) => Some(*own),
        Out::Data(_) | Out::Trailers(_) | Out::End | Out::Nothing => framing,
    }
}

// Whether trailers were put, this part among them.
pub(crate) fn trailers_with(trailers: bool, out: &Out) -> bool
    ensures { result ≡ trailers_with trailers out.now }
{
    match out {
        Out::Trailers(_) => true,
        Out::Head(_, _) | Out::Data(_) | Out::End | Out::Nothing => trailers,
    }
}

fn is_chunked(framing: Option<Framing>) -> bool
    ensures { result ≡ is_chunked framing }
{
    match framing {
        Some(Framing::Chunked) => true,
        Some(Framing::NoField) | Some(Framing::Length(_)) | None => false,
    }
}

// Whether the part that was put last has bytes.
pub(crate) fn has_bytes(framing: Option<Framing>, trailers: bool, out: &Out) -> bool
    ensures { result ≡ has_bytes framing trailers out.now }
{
    match out {
        Out::Head(_, _) => true,
        Out::Data(bytes) => framing.is_some() && !bytes.is_empty(),
        Out::Trailers(_) => is_chunked(framing),
        Out::End => is_chunked(framing) && !trailers,
        Out::Nothing => false,
    }
}

// The interim response.
#[tactic(auto, unfolding(http_model::specs::Wire::interim))]
pub(crate) fn write_interim(alloc: Global) -> Result<Going, AllocError>
    ensures { IfOk result (λ way. way ≡ plain (interim true)) }
{
    let bytes = Blob::of(alloc, b"HTTP/1.1 100 Continue\r\n\r\n")?;
    Ok(Going::of(bytes, 0, 0))
}

fn write_head(
    alloc: Global,
    direction: Direction,
    fields: &FieldList,
    framing: Framing,
) -> Result<Going, AllocError>
    ensures { IfOk result (λ way. way ≡ plain (head_bytes direction fields.now framing)) }
{
    let bytes = match direction {
        Direction::Request => request_bytes(alloc, fields, framing)?,
        Direction::Response => response_bytes(alloc, fields, framing)?,
    };
    Ok(Going::of(bytes, 0, 0))
}

// The data of a chunk stands before its last line end.
#[tactic(auto, using(crate::proofs::PartBytes::chunk_size))]
fn write_chunk(alloc: Global, bytes: &Blob) -> Result<Going, AllocError>
    requires { 0 < length bytes.now }
    ensures { IfOk result (λ way. way ≡ chunk_way bytes.now) }
{
    let chunk = chunk_bytes(alloc, bytes.bytes())?;
    let skip = chunk.len() - bytes.len() - 2;
    Ok(Going::of(chunk, skip, bytes.len()))
}

// Without chunks the bytes go as they are.
fn write_data(
    alloc: Global,
    framing: Option<Framing>,
    bytes: &mut Blob,
) -> Result<Going, AllocError>
    requires { 0 < length bytes.old }
    ensures way { IfOk result (λ way. way ≡ data_way framing bytes.old) }
    ensures unchanged { OnErr result (bytes.new ≡ bytes.old) }
{
    if is_chunked(framing) {
        let way = write_chunk(alloc, bytes)?;
        return Ok(way);
    }
    let size = bytes.len();
    let whole = mem::replace(bytes, Blob::new(alloc));
    Ok(Going::of(whole, 0, size))
}

fn write_last(alloc: Global, trailers: &FieldList) -> Result<Going, AllocError>
    ensures { IfOk result (λ way. way ≡ plain (last trailers.now)) }
{
    let bytes = last_bytes(alloc, trailers)?;
    Ok(Going::of(bytes, 0, 0))
}

// The bytes of the part that was put last, where it has some. They may leave the part.
pub(crate) fn write(
    alloc: Global,
    direction: Direction,
    framing: Option<Framing>,
    trailers: bool,
    out: &mut Out,
) -> Result<Going, AllocError>
    requires { has_bytes framing trailers out.old ≡ true }
    ensures way { IfOk result (λ way. way ≡ written_way direction framing trailers out.old) }
    ensures unchanged { OnErr result (out.new ≡ out.old) }
{
    match out {
        Out::Head(fields, own) => write_head(alloc, direction, fields, *own),
        Out::Data(bytes) => write_data(alloc, framing, bytes),
        Out::Trailers(fields) => write_last(alloc, fields),
        Out::End => write_last(alloc, &FieldList::new(alloc)),
        Out::Nothing => Ok(Going::of(Blob::new(alloc), 0, 0)),
    }
}
