//! Frames as they are written: without padding and without priority, RFC 9113 sections 4.1 and 6. Their bytes are
//! copied from any of them on, so that a frame may go out in pieces.

ghost use Rattle.std.specs.Prelude.{◌≡◌, ◌<◌, ◌≤◌, ◌+◌, ◌-◌, ◌*◌, ◌^◌, ◌++◌, ◌∷◌, [], length, drop};
ghost use Rattle.std.specs.Int.{w16, w32, to_be_bytes};
ghost use Rattle.h2_frames.specs.Copied.{IsCopied, IsShort, goaway_bytes, settings_bytes};
ghost use Rattle.h2_frames.specs.Spelling.{bit, three, framed, setting_bytes, spelling};

use crate::copy::copy_into;
use crate::flags::{ACK, END_HEADERS, END_STREAM};
use crate::frame::{Frame, Setting};
use crate::protocol::HEAD_LEN;
use crate::types;

fn head(kind: u8, flags: u8, stream: u32, size: u32) -> [u8; 9]
    ensures { result ≡ three size ++ kind ∷ flags ∷ to_be_bytes w32 stream }
{
    let size = size.to_be_bytes();
    let stream = stream.to_be_bytes();
    [
        size[1], size[2], size[3], kind, flags, stream[0], stream[1], stream[2], stream[3],
    ]
}

// Copies the bytes from the one at `at` on: those of the head, or those of the payload.
fn copy_framed(
    kind: u8,
    flags: u8,
    stream: u32,
    payload: &[u8],
    at: usize,
    out: &mut [u8],
    from: usize,
) -> usize
    requires size { length payload.now ≤ 16_384 }
    requires there { at < 9 + length payload.now }
    requires room { from < length out.old }
    ensures { IsCopied (drop at (framed kind flags stream payload.now)) from out.old out.new result }
{
    if at < HEAD_LEN {
        let head = head(kind, flags, stream, payload.len() as u32);
        return copy_into(&head[at..], out, from);
    }
    copy_into(&payload[at - HEAD_LEN..], out, from)
}

fn end_of_stream(last: bool) -> u8
    ensures { result ≡ bit 1 last }
{
    if last { END_STREAM } else { 0 }
}

fn end_of_block(ends: bool) -> u8
    ensures { result ≡ bit 4 ends }
{
    if ends { END_HEADERS } else { 0 }
}

/// Copies a part of a field block as HEADERS, as [`copy_frame`] does.
pub fn copy_headers(
    stream: u32,
    part: &[u8],
    last: bool,
    ends: bool,
    at: usize,
    out: &mut [u8],
    from: usize,
) -> usize
    requires size { length part.now ≤ 16_384 }
    requires there { at < 9 + length part.now }
    requires room { from < length out.old }
    ensures { IsCopied (drop at (framed 1 (bit 1 last + bit 4 ends) stream part.now)) from out.old out.new result }
{
    let flags = end_of_stream(last) + end_of_block(ends);
    copy_framed(types::HEADERS, flags, stream, part, at, out, from)
}

/// Copies a part of a field block as CONTINUATION, as [`copy_frame`] does.
pub fn copy_continuation(
    stream: u32,
    part: &[u8],
    ends: bool,
    at: usize,
    out: &mut [u8],
    from: usize,
) -> usize
    requires size { length part.now ≤ 16_384 }
    requires there { at < 9 + length part.now }
    requires room { from < length out.old }
    ensures { IsCopied (drop at (framed 9 (bit 4 ends) stream part.now)) from out.old out.new result }
{
    copy_framed(
        types::CONTINUATION,
        end_of_block(ends),
        stream,
        part,
        at,
        out,
        from,
    )
}

// The six bytes of a setting: RFC 9113 section 6.5.1.
fn setting_bytes(setting: Setting) -> [u8; 6]
    ensures { result ≡ setting_bytes setting }
{
    let identifier = setting.identifier.to_be_bytes();
    let value = setting.value.to_be_bytes();
    [
        identifier[0],
        identifier[1],
        value[0],
        value[1],
        value[2],
        value[3],
    ]
}

// Copies bytes of SETTINGS: of the head, or of one setting.
fn copy_settings(list: &[Setting], at: usize, out: &mut [u8], from: usize) -> usize
    requires size { 6 * length list.now ≤ 16_384 }
    requires there { at < 9 + 6 * length list.now }
    requires room { from < length out.old }
    ensures { IsCopied (drop at (settings_bytes list.now)) from out.old out.new result }
{
    if at < HEAD_LEN {
        let head = head(types::SETTINGS, 0, 0, 6 * list.len() as u32);
        return copy_into(&head[at..], out, from);
    }
    let place = at - HEAD_LEN;
    let setting = setting_bytes(list[place / 6]);
    copy_into(&setting[place % 6..], out, from)
}

// Prover: a function for each kind of payload, so that the proof of `copy_frame` opens none of them.

// Copies a frame whose payload is a number.
fn copy_number(kind: u8, stream: u32, number: u32, at: usize, out: &mut [u8], from: usize) -> usize
    requires there { at < 13 }
    requires room { from < length out.old }
    ensures { IsCopied (drop at (framed kind 0 stream (to_be_bytes w32 number))) from out.old out.new result }
{
    let payload = number.to_be_bytes();
    copy_framed(kind, 0, stream, payload.as_slice(), at, out, from)
}

// Copies PING.
fn copy_ping(ack: bool, bytes: &[u8; 8], at: usize, out: &mut [u8], from: usize) -> usize
    requires there { at < 9 + length bytes.now }
    requires room { from < length out.old }
    ensures { IsCopied (drop at (framed 6 (bit 1 ack) 0 bytes.now)) from out.old out.new result }
{
    copy_framed(
        types::PING,
        u8::from(ack),
        0,
        bytes.as_slice(),
        at,
        out,
        from,
    )
}

// Copies GOAWAY.
fn copy_goaway(last: u32, code: u32, at: usize, out: &mut [u8], from: usize) -> usize
    requires there { at < 17 }
    requires room { from < length out.old }
    ensures { IsCopied (drop at (goaway_bytes last code)) from out.old out.new result }
{
    let last = last.to_be_bytes();
    let code = code.to_be_bytes();
    let payload = [
        last[0], last[1], last[2], last[3], code[0], code[1], code[2], code[3],
    ];
    copy_framed(types::GOAWAY, 0, 0, payload.as_slice(), at, out, from)
}

/// How many bytes are written for a frame.
pub fn frame_len(frame: &Frame) -> usize
    requires { IsShort frame.now }
    ensures len { result ≡ length (spelling frame.now) }
    ensures bound { result < 2 ^ 64 - 24 }
{
    match frame {
        Frame::Data(_, content, _, _) => HEAD_LEN + content.len(),
        Frame::Headers(_, part, _, _) => HEAD_LEN + part.len(),
        Frame::Settings(list) => HEAD_LEN + 6 * list.len() as usize,
        Frame::Continuation(_, part, _) => HEAD_LEN + part.len(),
        Frame::Ping(_, bytes) => HEAD_LEN + bytes.as_slice().len(),
        Frame::GoAway(..) => HEAD_LEN + 8,
        Frame::Reset(..) | Frame::Window(..) => HEAD_LEN + 4,
        Frame::Priority(_) | Frame::Push(_) | Frame::SettingsAck | Frame::Unknown(_) => HEAD_LEN,
    }
}

/// Copies the bytes of a frame from the one at `at` on to the place `from` of a buffer: of its head or of its payload,
/// as many as fit, and tells how many. `Priority`, `Push` and `Unknown` have an empty payload.
pub fn copy_frame(frame: &Frame, at: usize, out: &mut [u8], from: usize) -> usize
    requires short { IsShort frame.now }
    requires there { at < length (spelling frame.now) }
    requires room { from < length out.old }
    ensures { IsCopied (drop at (spelling frame.now)) from out.old out.new result }
{
    match frame {
        Frame::Data(stream, content, last, _) => {
            let flags = end_of_stream(*last);
            copy_framed(types::DATA, flags, *stream, content.bytes(), at, out, from)
        }
        Frame::Headers(stream, part, last, ends) => {
            copy_headers(*stream, part.bytes(), *last, *ends, at, out, from)
        }
        Frame::Priority(stream) => copy_framed(types::PRIORITY, 0, *stream, b"", at, out, from),
        Frame::Reset(stream, code) => copy_number(types::RST_STREAM, *stream, *code, at, out, from),
        Frame::Settings(list) => copy_settings(list.as_slice(), at, out, from),
        Frame::SettingsAck => copy_framed(types::SETTINGS, ACK, 0, b"", at, out, from),
        Frame::Push(stream) => copy_framed(types::PUSH_PROMISE, 0, *stream, b"", at, out, from),
        Frame::Ping(ack, bytes) => copy_ping(*ack, bytes, at, out, from),
        Frame::GoAway(last, code) => copy_goaway(*last, *code, at, out, from),
        Frame::Window(stream, increment) => {
            copy_number(types::WINDOW_UPDATE, *stream, *increment, at, out, from)
        }
        Frame::Continuation(stream, part, ends) => {
            copy_continuation(*stream, part.bytes(), *ends, at, out, from)
        }
        Frame::Unknown(kind) => copy_framed(*kind, 0, 0, b"", at, out, from),
    }
}
