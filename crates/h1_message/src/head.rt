//! The bytes of an unfinished head.

ghost use Rattle.std.specs.Prelude.{◌≡◌, ◌<◌, ◌^◌, length, IfOk, OnErr};
ghost use Rattle.h1_message.specs.Feeding.{HeadWasFed};

use crate::body::{BodyFed, behind, feed_body, named};
use h1_read::{BodyReader, H1Fault, HeadReader, Message};
use std::alloc::{AllocError, Global};

/// What bytes of an unfinished head give.
#[derive(Drop)]
pub(crate) enum HeadFed {
    /// More of it.
    On,
    /// No head, whatever follows.
    Bad(H1Fault),
    /// The head, and what the others give of the body.
    Got(Message, BodyFed),
}

/// Reads on in a head, and in the body behind it. But where the head goes on, the reader stays as it was.
pub(crate) fn feed_head(
    alloc: Global,
    reader: &mut HeadReader,
    bytes: &[u8],
) -> Result<HeadFed, AllocError>
    requires { length bytes.now < 2 ^ 32 }
    ensures fed { IfOk result (HeadWasFed reader.old bytes.now reader.new) }
    ensures unchanged { OnErr result (reader.new ≡ reader.old) }
{
    match reader.feed(bytes) {
        Ok(None) => Ok(HeadFed::On),
        Ok(Some((message, used))) => {
            let body = BodyReader::new(alloc, message.length)?;
            let fed = feed_body(alloc, body, behind(bytes, used as usize))?;
            Ok(HeadFed::Got(message, fed))
        }
        Err(fault) => Ok(HeadFed::Bad(named(fault)?)),
    }
}
