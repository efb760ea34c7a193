//! PING: RFC 9113 section 6.7.

ghost use Rattle.std.specs.Prelude.{◌≡◌, false, length, Some};
ghost use Rattle.h2_frames.specs.Headers.{has_wrong_size as wrong_size};
ghost use Rattle.h2_frames.specs.Payloads.{frame_of};
ghost use Rattle.h2_frames.specs.declared.header.Kind.TheVariants as kind;

use crate::frame::Frame;
use crate::header::Header;

pub(crate) fn has_wrong_size(header: Header) -> bool
    ensures { result ≡ wrong_size kind.Ping header }
{
    header.size != 8
}

#[tactic(auto, unfolding(crate::specs::Payloads::frame_of))]
pub(crate) fn read(header: Header, payload: &[u8]) -> Frame
    requires whole { length payload.now ≡ header.size }
    requires sized { wrong_size kind.Ping header ≡ false }
    ensures { frame_of kind.Ping header payload.now ≡ Some result }
{
    let bytes = [
        payload[0], payload[1], payload[2], payload[3], payload[4], payload[5], payload[6],
        payload[7],
    ];
    Frame::Ping(header.is_ack(), bytes)
}
