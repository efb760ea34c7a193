//! DATA: RFC 9113 section 6.1.

ghost use Rattle.std.specs.Prelude.{◌≡◌, false, length};
ghost use Rattle.h2_frames.specs.Headers.{has_wrong_size as wrong_size};
ghost use Rattle.h2_frames.specs.Payloads.{frame_of};
ghost use Rattle.h2_frames.specs.Reading.{GivesRead};
ghost use Rattle.h2_frames.specs.declared.header.Kind.TheVariants as kind;

use crate::fault::FrameFault;
use crate::frame::Frame;
use crate::header::Header;
use crate::padding::content;
use pb_wire::Blob;
use std::alloc::Global;

pub(crate) fn has_wrong_size(header: Header) -> bool
    ensures { result ≡ wrong_size kind.Data header }
{
    header.size < header.pad_byte()
}

#[tactic(auto, unfolding(crate::specs::Payloads::frame_of))]
pub(crate) fn read(alloc: Global, header: Header, payload: &[u8]) -> Result<Frame, FrameFault>
    requires whole { length payload.now ≡ header.size }
    requires sized { wrong_size kind.Data header ≡ false }
    ensures { GivesRead (λ f. f) result (frame_of kind.Data header payload.now) }
{
    let content = content(header, header.pad_byte(), payload)?;
    let content = Blob::of(alloc, content)?;
    Ok(Frame::Data(header.stream, content, header.is_last(), header.size))
}
