//! GOAWAY: RFC 9113 section 6.8. The bytes behind the code are for people and aren't read.

ghost use Rattle.std.specs.Prelude.{◌≡◌, false, length, Some};
ghost use Rattle.h2_frames.specs.Headers.{has_wrong_size as wrong_size};
ghost use Rattle.h2_frames.specs.Payloads.{frame_of};
ghost use Rattle.h2_frames.specs.declared.header.Kind.TheVariants as kind;

use crate::frame::Frame;
use crate::header::Header;
use crate::numbers::u32_at;

pub(crate) fn has_wrong_size(header: Header) -> bool
    ensures { result ≡ wrong_size kind.GoAway header }
{
    header.size < 8
}

#[tactic(auto, unfolding(crate::specs::Payloads::frame_of))]
pub(crate) fn read(header: Header, payload: &[u8]) -> Frame
    requires whole { length payload.now ≡ header.size }
    requires sized { wrong_size kind.GoAway header ≡ false }
    ensures { frame_of kind.GoAway header payload.now ≡ Some result }
{
    Frame::GoAway(u32_at(payload, 0) % (1 << 31), u32_at(payload, 4))
}
