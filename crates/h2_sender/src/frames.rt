//! What a frame is in the queue, and how its bytes are given.

ghost use Rattle.std.specs.Prelude.{◌≡◌, ◌<◌, ◌-◌, ◌^◌, length, drop};
ghost use Rattle.h2_frames.specs.Copied.{IsCopied};
ghost use Rattle.h2_model.specs.Calls.{is_window};
ghost use Rattle.h2_model.specs.Log.{stream_of};
ghost use Rattle.h2_model.specs.Queue.{is_ack, is_data, is_block, is_reset_frame, has_bytes, data_in, bytes_of};
ghost use Rattle.h2_sender.specs.Outgoing.{IsSendable};

use crate::block::{block_len, copy_block};
use h2_frames::{Frame, copy_frame, frame_len};

pub(crate) fn is_data(frame: &Frame) -> bool
    ensures { result ≡ is_data frame.now }
{
    matches!(frame, Frame::Data(..))
}

pub(crate) fn is_block(frame: &Frame) -> bool
    ensures { result ≡ is_block frame.now }
{
    matches!(frame, Frame::Headers(..))
}

pub(crate) fn is_ack(frame: &Frame) -> bool
    ensures { result ≡ is_ack frame.now }
{
    matches!(frame, Frame::SettingsAck)
}

pub(crate) fn is_reset(frame: &Frame) -> bool
    ensures { result ≡ is_reset_frame frame.now }
{
    matches!(frame, Frame::Reset(..))
}

pub(crate) fn is_window(frame: &Frame) -> bool
    ensures { result ≡ is_window frame.now }
{
    matches!(frame, Frame::Window(..))
}

/// Whether it is DATA with content.
pub(crate) fn has_bytes(frame: &Frame) -> bool
    ensures { result ≡ has_bytes frame.now }
{
    match frame {
        Frame::Data(_, content, _, _) => !content.is_empty(),
        _ => false,
    }
}

/// The stream of a frame that a session sends; 0 is the connection.
pub(crate) fn stream_of(frame: &Frame) -> u32
    ensures { result ≡ stream_of frame.now }
{
    match frame {
        Frame::Data(stream, _, _, _) => *stream,
        Frame::Headers(stream, _, _, _) => *stream,
        Frame::Reset(stream, _) => *stream,
        Frame::Window(stream, _) => *stream,
        _ => 0,
    }
}

/// How many bytes of DATA it has for a stream, or, for stream 0, for any.
pub(crate) fn data_in(stream: u32, frame: &Frame) -> u64
    ensures { result ≡ data_in stream frame.now }
{
    match frame {
        Frame::Data(id, content, _, _) => {
            if stream == 0 || *id == stream {
                content.len() as u64
            } else {
                0
            }
        }
        _ => 0,
    }
}

/// How many bytes are written for a frame. A field block is cut into frames.
pub(crate) fn len_of(frame: &Frame) -> usize
    requires { IsSendable frame.now }
    ensures len { result ≡ length (bytes_of frame.now) }
    ensures bound { result < 2 ^ 64 - 24 }
{
    match frame {
        Frame::Headers(_, block, _, _) => block_len(block.bytes()),
        other => frame_len(other),
    }
}

/// Copies the bytes of a frame from the one at `at` on: of its head or of its payload, as many as fit.
pub(crate) fn copy_bytes(frame: &Frame, at: usize, out: &mut [u8], from: usize) -> usize
    requires sendable { IsSendable frame.now }
    requires there { at < length (bytes_of frame.now) }
    requires room { from < length out.old }
    ensures { IsCopied (drop at (bytes_of frame.now)) from out.old out.new result }
{
    match frame {
        Frame::Headers(stream, block, last, _) => {
            copy_block(*stream, block.bytes(), *last, at, out, from)
        }
        other => copy_frame(other, at, out, from),
    }
}
