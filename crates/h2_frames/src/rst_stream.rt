//! RST_STREAM: RFC 9113 section 6.4.

ghost use Rattle.std.specs.Prelude.{◌≡◌, false, length, Some};
ghost use Rattle.h2_frames.specs.Headers.{has_wrong_size as wrong_size};
ghost use Rattle.h2_frames.specs.Payloads.{frame_of};
ghost use Rattle.h2_frames.specs.declared.header.Kind.TheVariants as kind;

use crate::frame::Frame;
use crate::header::Header;
use crate::numbers::u32_at;

pub(crate) fn has_wrong_size(header: Header) -> bool
    ensures { result ≡ wrong_size kind.Reset header }
{
    header.size != 4
}

#[tactic(auto, unfolding(crate::specs::Payloads::frame_of))]
pub(crate) fn read(header: Header, payload: &[u8]) -> Frame
    requires whole { length payload.now ≡ header.size }
    requires sized { wrong_size kind.Reset header ≡ false }
    ensures { frame_of kind.Reset header payload.now ≡ Some result }
{
    Frame::Reset(header.stream, u32_at(payload, 0))
}
