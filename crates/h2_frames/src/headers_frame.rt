//! HEADERS: RFC 9113 section 6.2.

ghost use Rattle.std.specs.Prelude.{◌≡◌, ◌+◌, false, length};
ghost use Rattle.h2_frames.specs.Headers.{has_wrong_size as wrong_size};
ghost use Rattle.h2_frames.specs.Payloads.{frame_of};
ghost use Rattle.h2_frames.specs.Reading.{GivesRead};
ghost use Rattle.h2_frames.specs.declared.header.Kind.TheVariants as kind;

use crate::fault::FrameFault;
use crate::frame::Frame;
use crate::header::Header;
use crate::padding::content;
use pb_wire::Blob;
use std::alloc::Global;

pub(crate) fn has_wrong_size(header: Header) -> bool
    ensures { result ≡ wrong_size kind.Headers header }
{
    header.size < header.pad_byte() + header.priority_bytes()
}

#[tactic(auto, unfolding(crate::specs::Payloads::frame_of))]
pub(crate) fn read(alloc: Global, header: Header, payload: &[u8]) -> Result<Frame, FrameFault>
    requires whole { length payload.now ≡ header.size }
    requires sized { wrong_size kind.Headers header ≡ false }
    ensures { GivesRead (λ f. f) result (frame_of kind.Headers header payload.now) }
{
    let before = header.pad_byte() + header.priority_bytes();
    let block = content(header, before, payload)?;
    let block = Blob::of(alloc, block)?;
    Ok(Frame::Headers(header.stream, block, header.is_last(), header.ends_block()))
}
