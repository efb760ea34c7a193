//! The rows of the table of connection errors, in its order: RFC 9113 section 5.4.1.

ghost use Rattle.std.specs.Prelude.{◌≡◌, ◌≤◌, ◌<◌, ◌^◌, ◌&&◌, ◌==◌, ◌%◌, ℕ, Bool, nat_lt, pos, ◌+ℤ◌, ◌≤ℤ◌};
ghost use Rattle.std.specs.List.{list_any};
ghost use Rattle.h2_model.specs.Account.{Account};
ghost use Rattle.h2_model.specs.Blocks.{block_with, open_block};
ghost use Rattle.h2_model.specs.State.{streams as live_streams};
ghost use Rattle.h2_model.specs.Streams.{is_live};
ghost use Rattle.h2_model.specs.Violations.{breaks_block, exceeds_window, has_bad_setting, has_wide_setting, is_bad_setting, is_empty_update, is_long, is_on_unopened, is_push, is_settings, widens_connection};
ghost use Rattle.h2_model.specs.Windows.{connection_window, is_too_wide, receiving_window};
ghost use Rattle.h2_streams.specs.Settings.{is_wide_among};
ghost use Rattle.h2_model.specs.Known.{HasOpened};

use crate::blocks::{LONGEST, PartialBlock};
use crate::numbers::Numbers;
use crate::table::StreamTable;
use h2_frames::protocol::{
    ENABLE_PUSH, INITIAL_WINDOW_SIZE, LONGEST_PAYLOAD, MAX_FRAME_SIZE, MOST_FRAME_SIZE,
    WIDEST_WINDOW,
};
use h2_frames::{Frame, Setting};

/// The first frame has to be SETTINGS: section 3.4.
pub fn is_settings(frame: &Frame) -> bool
    ensures { result ≡ is_settings frame.now }
{
    matches!(frame, Frame::Settings(_))
}

/// A frame within a block, or CONTINUATION elsewhere: sections 4.3 and 6.10.
pub fn breaks_block(block: &Option<PartialBlock>, frame: &Frame) -> bool
    ensures { result ≡ breaks_block block.now frame.now }
{
    match (block, frame) {
        (Some(block), Frame::Continuation(id, _, _)) => *id != block.stream,
        (Some(_), _) => true,
        (None, Frame::Continuation(_, _, _)) => true,
        (None, _) => false,
    }
}

/// PUSH_PROMISE, which a client disables and no client sends: sections 6.6 and 8.4.
pub fn is_push(frame: &Frame) -> bool
    ensures { result ≡ is_push frame.now }
{
    matches!(frame, Frame::Push(_))
}

/// A frame on an idle stream, or HEADERS that can't open one: sections 5.1 and 5.1.1.
pub fn is_on_unopened(client: bool, numbers: &Numbers, frame: &Frame) -> bool
    ensures { (a : Account) → client ≡ a.client → HasOpened numbers.now a → result ≡ is_on_unopened a frame.now }
{
    match frame {
        Frame::Data(id, _, _, _) => !numbers.is_opened(*id),
        Frame::Reset(id, _) => !numbers.is_opened(*id),
        Frame::Window(id, _) => *id != 0 && !numbers.is_opened(*id),
        Frame::Headers(id, _, _, _) => {
            !numbers.is_opened(*id) && (client || !numbers.can_open(*id))
        }
        _ => false,
    }
}

/// ENABLE_PUSH or MAX_FRAME_SIZE out of range: section 6.5.2.
pub fn has_bad_setting(client: bool, frame: &Frame) -> bool
    ensures { (a : Account) → client ≡ a.client → result ≡ has_bad_setting a frame.now }
{
    match frame {
        Frame::Settings(list) => any_bad(client, list.as_slice()),
        _ => false,
    }
}

fn any_bad(client: bool, list: &[Setting]) -> bool
    ensures { result ≡ list_any (is_bad_setting client) list.now }
{
    list.iter().any(|s| is_bad_setting(client, s))
}

fn is_bad_setting(client: bool, setting: &Setting) -> bool
    ensures { result ≡ is_bad_setting client setting.now }
{
    let most = if client { 0 } else { 1 };
    (setting.identifier == ENABLE_PUSH && most < setting.value)
        || (setting.identifier == MAX_FRAME_SIZE
            && (setting.value < LONGEST_PAYLOAD || MOST_FRAME_SIZE < setting.value))
}

/// INITIAL_WINDOW_SIZE that makes a window too wide: sections 6.5.2 and 6.9.2.
pub fn has_wide_setting(streams: &StreamTable, frame: &Frame) -> bool
    ensures { (a : Account) → streams.now.streams ≡ live_streams a → result ≡ has_wide_setting a frame.now }
{
    match frame {
        Frame::Settings(list) => any_wide(streams, list.as_slice()),
        _ => false,
    }
}

fn any_wide(streams: &StreamTable, list: &[Setting]) -> bool
    ensures { result ≡ list_any (is_wide_among streams.now.streams) list.now }
{
    list.iter().any(|s| is_wide_setting(streams, s))
}

fn is_wide_setting(streams: &StreamTable, setting: &Setting) -> bool
    ensures { result ≡ is_wide_among streams.now.streams setting.now }
{
    setting.identifier == INITIAL_WINDOW_SIZE
        && (i64::from(setting.value) > WIDEST_WINDOW || streams.widens(setting.value))
}

/// WINDOW_UPDATE of 0 on the connection: section 6.9.
pub fn is_empty_update(frame: &Frame) -> bool
    ensures { result ≡ is_empty_update frame.now }
{
    matches!(frame, Frame::Window(0, 0))
}

// Whether an increment makes a sending window too wide.
pub(crate) fn is_too_wide(window: i64, n: u32) -> bool
    requires { window ≤ℤ pos (2 ^ 41) }
    ensures { result ≡ is_too_wide (window +ℤ pos n) }
{
    window + i64::from(n) > WIDEST_WINDOW
}

/// The connection's window past 2^31 - 1: section 6.9.1.
pub fn widens_connection(window: i64, frame: &Frame) -> bool
    requires { window ≤ℤ pos (2 ^ 41) }
    ensures { (a : Account) → window ≡ connection_window a → result ≡ widens_connection a frame.now }
{
    match frame {
        Frame::Window(0, n) => is_too_wide(window, *n),
        _ => false,
    }
}

/// DATA past a receiving window: section 6.9.1.
pub fn exceeds_window(receive: u32, streams: &StreamTable, frame: &Frame) -> bool
    ensures { (a : Account) → receive ≡ receiving_window 0 a.log → streams.now.streams ≡ live_streams a →
        result ≡ exceeds_window a frame.now }
{
    match frame {
        Frame::Data(id, _, _, size) => { receive < *size || exceeds_stream(streams, *id, *size) }
        _ => false,
    }
}

fn exceeds_stream(streams: &StreamTable, id: u32, size: u32) -> bool
    ensures { (a : Account) → streams.now.streams ≡ live_streams a →
        result ≡ (is_live id a.log && nat_lt (receiving_window id a.log) size) }
{
    match streams.get(id) {
        Some(stream) => stream.receive < size,
        None => false,
    }
}

/// A block of more than 65,536 bytes: section 10.5.1.
pub fn has_long_block(block: &Option<PartialBlock>, frame: &Frame) -> bool
    ensures { (a : Account) → block.now ≡ open_block a.log → result ≡ is_long (block_with a.log frame.now) }
{
    match (frame, block) {
        (Frame::Headers(_, part, _, _), _) => part.len() > LONGEST,
        (Frame::Continuation(_, part, _), Some(block)) => {
            block.bytes.len() > LONGEST || part.len() > LONGEST - block.bytes.len()
        }
        _ => false,
    }
}
