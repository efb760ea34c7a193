//! The bytes of a body.

ghost use Rattle.std.specs.Prelude.{◌≡◌, ◌+◌, ◌≤◌, ◌<◌, ◌^◌, length, drop, slice_range, IfOk};
ghost use Rattle.h1_message.specs.Feeding.{IsBodyFed, IsNamed};

use ext_msgs::FieldList;
use h1_read::{BodyReader, H1Fault, Piece};
use pb_wire::Blob;
use std::alloc::{AllocError, Global};

/// What stands behind bytes of a body.
#[derive(Drop)]
pub(crate) enum Next {
    /// More of it.
    On(BodyReader),
    /// Nothing: it can't be read on.
    Bad(H1Fault),
    /// Its end, with these trailers.
    Whole(FieldList),
}

/// What bytes of a body give.
#[derive(Drop)]
pub(crate) struct BodyFed {
    pub content: Blob,
    pub next: Next,
}

/// A fault of the bytes, or no memory.
pub(crate) fn named(fault: H1Fault) -> Result<H1Fault, AllocError>
    ensures { IfOk result (IsNamed fault) }
{
    match fault {
        H1Fault::Memory => Err(AllocError),
        H1Fault::BadHead => Ok(fault),
        H1Fault::LongHead => Ok(fault),
        H1Fault::BadLength => Ok(fault),
        H1Fault::BadChunk => Ok(fault),
        H1Fault::Version => Ok(fault),
        H1Fault::Method => Ok(fault),
        H1Fault::CutShort => Ok(fault),
    }
}

/// The bytes from a place on.
pub(crate) fn behind(bytes: &[u8], at: usize) -> &[u8]
    requires { at ≤ length bytes.now }
    ensures { result.now ≡ drop at bytes.now }
{
    let (_, rest) = bytes.split_at(at);
    rest
}

// So many bytes from a place on.
fn part(bytes: &[u8], start: u32, len: u32) -> &[u8]
    requires inside { start + len ≤ length bytes.now }
    requires fits { start + len < 2 ^ 32 }
    ensures { result.now ≡ slice_range bytes.now start (start + len) }
{
    &bytes[start as usize..start as usize + len as usize]
}

// What a call gives that ends with this.
fn fed(content: Vec<u8>, next: Next) -> BodyFed
    ensures { result ≡ record { content = content.items; next = next } }
{
    let content = Blob::from_vec(content);
    BodyFed { content, next }
}

/// Reads on in a body. Each piece of content is copied once.
pub(crate) fn feed_body(
    alloc: Global,
    body: BodyReader,
    bytes: &[u8],
) -> Result<BodyFed, AllocError>
    requires { length bytes.now < 2 ^ 32 }
    ensures { IfOk result (IsBodyFed body bytes.now) }
{
    let mut body = body;
    let mut content = Vec::new(alloc);
    let mut at = 0;
    'pieces: loop {
        let rest = behind(bytes, at);
        match body.feed(rest) {
            Ok((Piece::More, _)) => return Ok(fed(content, Next::On(body))),
            Ok((Piece::Data(start, len), used)) => {
                content.extend_from_slice(part(rest, start, len))?;
                at += used as usize;
            }
            Ok((Piece::End(trailers), _)) => return Ok(fed(content, Next::Whole(trailers))),
            Err(fault) => return Ok(fed(content, Next::Bad(named(fault)?))),
        }
    }
}
