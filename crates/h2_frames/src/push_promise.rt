//! PUSH_PROMISE: RFC 9113 section 6.6. No side here allows it, so its payload isn't read, and none is written.

ghost use Rattle.std.specs.Prelude.{◌≡◌, Some};
ghost use Rattle.h2_frames.specs.Payloads.{frame_of};
ghost use Rattle.h2_frames.specs.declared.header.Kind.TheVariants as kind;

use crate::frame::Frame;
use crate::header::Header;

#[tactic(auto, unfolding(crate::specs::Payloads::frame_of))]
pub(crate) fn read(header: Header, payload: &[u8]) -> Frame
    ensures { frame_of kind.Push header payload.now ≡ Some result }
{
    let _ = payload;
    Frame::Push(header.stream)
}
