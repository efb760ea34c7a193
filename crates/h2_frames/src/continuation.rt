//! CONTINUATION: RFC 9113 section 6.10.

ghost use Rattle.h2_frames.specs.Payloads.{frame_of};
ghost use Rattle.h2_frames.specs.Reading.{GivesRead};
ghost use Rattle.h2_frames.specs.declared.header.Kind.TheVariants as kind;

use crate::fault::FrameFault;
use crate::frame::Frame;
use crate::header::Header;
use pb_wire::Blob;
use std::alloc::Global;

#[tactic(auto, unfolding(crate::specs::Payloads::frame_of))]
pub(crate) fn read(alloc: Global, header: Header, payload: &[u8]) -> Result<Frame, FrameFault>
    ensures { GivesRead (λ f. f) result (frame_of kind.Continuation header payload.now) }
{
    let block = Blob::of(alloc, payload)?;
    Ok(Frame::Continuation(header.stream, block, header.ends_block()))
}
