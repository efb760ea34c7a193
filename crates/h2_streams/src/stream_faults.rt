//! The table of stream errors: RFC 9113 section 5.4.2. Only a live stream has one.

ghost use Rattle.std.specs.Prelude.{◌≡◌, ◌&&◌, ◌||◌, ◌==◌, ◌^◌, not, length, slice_index, nat_le, pos, ◌+ℤ◌, ◌≤ℤ◌};
ghost use Rattle.std.specs.List.{list_any, list_all};
ghost use Rattle.h2_model.specs.Account.{Account};
ghost use Rattle.h2_model.specs.Blocks.{OpenBlock};
ghost use Rattle.h2_model.specs.Codes.{first_row};
ghost use Rattle.h2_model.specs.Settings.{initial_window};
ghost use Rattle.h2_model.specs.State.{stream_of_log};
ghost use Rattle.h2_model.specs.StreamFaults.{block_rows, data_rows, has_late_pseudo, has_upper_case, is_interim, is_pseudo, update_rows};
ghost use Rattle.h2_streams.specs.Tables.{HasCreditInRange};

use crate::violations::is_too_wide;
use ext_msgs::{Field, FieldList};
use h2_frames::codes::{FLOW_CONTROL_ERROR, PROTOCOL_ERROR, STREAM_CLOSED};
use h2_model::Stream;

/// DATA on a stream that is half-closed (remote): section 5.1.
pub fn data_fault(stream: &Stream) -> Option<u32>
    ensures { (a : Account) → stream.now ≡ stream_of_log stream.now.id a →
        result ≡ first_row (data_rows a stream.now.id) }
{
    if stream.peer_ended {
        return Some(STREAM_CLOSED);
    }
    None
}

// The stream's sending window.
fn window(stream: &Stream, initial: u32) -> i64
    requires { HasCreditInRange stream.now }
    ensures sum { result ≡ pos initial +ℤ stream.now.credit }
    ensures bound { result ≤ℤ pos (2 ^ 41) }
{
    i64::from(initial) + stream.credit
}

/// WINDOW_UPDATE of 0 (section 6.9), or one that makes the window too wide (section 6.9.1).
pub fn update_fault(stream: &Stream, initial: u32, n: u32) -> Option<u32>
    requires { HasCreditInRange stream.now }
    ensures { (a : Account) → stream.now ≡ stream_of_log stream.now.id a → initial ≡ initial_window a.log →
        result ≡ first_row (update_rows a stream.now.id n) }
{
    if n == 0 {
        return Some(PROTOCOL_ERROR);
    }
    if is_too_wide(window(stream, initial), n) {
        return Some(FLOW_CONTROL_ERROR);
    }
    None
}

/// A block on a stream that is half-closed (remote) (section 5.1), a second block that doesn't end the stream (8.1), or
/// one with an upper-case name or a late pseudo field (8.2.1, 8.3).
pub fn block_fault(stream: &Stream, last: bool, fields: &FieldList) -> Option<u32>
    ensures { (a : Account) (b : OpenBlock) → stream.now ≡ stream_of_log b.stream a → last ≡ b.last →
        result ≡ first_row (block_rows a b fields.now) }
{
    if stream.peer_ended {
        return Some(STREAM_CLOSED);
    }
    if is_second(stream, last) {
        return Some(PROTOCOL_ERROR);
    }
    if is_malformed(fields.as_slice()) {
        return Some(PROTOCOL_ERROR);
    }
    None
}

// A block behind the head that isn't preceded by interim responses alone.
fn is_second(stream: &Stream, last: bool) -> bool
    ensures { result ≡ (not last && not stream.now.interim) }
{
    !last && !stream.interim
}

fn is_malformed(fields: &[Field]) -> bool
    ensures { result ≡ (list_any has_upper_case fields.now || has_late_pseudo fields.now) }
{
    has_upper_case(fields) || has_late_pseudo(fields)
}

fn has_capital(name: &[u8]) -> bool
    ensures { result ≡ list_any (λ b. nat_le 65 b && nat_le b 90) name.now }
{
    name.iter().any(|b| b'A' <= *b && *b <= b'Z')
}

fn has_upper_case(fields: &[Field]) -> bool
    ensures { result ≡ list_any has_upper_case fields.now }
{
    fields.iter().any(|field| has_capital(field.name.bytes()))
}

fn is_pseudo(field: &Field) -> bool
    ensures { result ≡ is_pseudo field.now }
{
    field.name.bytes().starts_with(b":")
}

// A pseudo field behind one that is none.
fn has_late_pseudo(fields: &[Field]) -> bool
    ensures { result ≡ has_late_pseudo fields.now }
{
    let mut regular = false;
    for field in fields {
        if !is_pseudo(field) {
            regular = true;
        } else if regular {
            return true;
        }
    }
    false
}

/// Whether a head is an interim response: `:status` 100 to 199.
pub fn is_interim(fields: &FieldList) -> bool
    ensures { result ≡ is_interim fields.now }
{
    for field in fields.as_slice() {
        if field.name.bytes() == b":status".as_slice() {
            return is_interim_status(field.value.bytes());
        }
    }
    false
}

fn is_interim_status(status: &[u8]) -> bool
    ensures { result ≡ ((length status.now == 3) && (slice_index status.now 0 == 49)
        && list_all (λ b. nat_le 48 b && nat_le b 57) status.now) }
{
    status.len() == 3
        && status[0] == b'1'
        && status[1].is_ascii_digit()
        && status[2].is_ascii_digit()
}
