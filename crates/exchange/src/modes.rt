//! Modes and times that an answer brings.

ghost use Rattle.std.specs.Prelude.{◌≡◌, ◌≤◌, ◌+ℤ◌, ◌*ℤ◌, pos};
ghost use Rattle.filter_model.specs.Answers.{both_modes, valid_ms, all_three, header_modes, trailer_modes};
ghost use Rattle.filter_model.specs.Answers.{body_modes, choice};

use ext_msgs::{BodyMode, ModeNumbers, PartModes, Span};

// DEFAULT, SEND, SKIP: heads are asked by default.
fn header_mode(n: i32) -> Option<bool>
    ensures { result ≡ choice header_modes n }
{
    match n {
        0 | 1 => Some(true),
        2 => Some(false),
        _ => None,
    }
}

// DEFAULT, SEND, SKIP: trailers aren't.
fn trailer_mode(n: i32) -> Option<bool>
    ensures { result ≡ choice trailer_modes n }
{
    match n {
        0 | 2 => Some(false),
        1 => Some(true),
        _ => None,
    }
}

// NONE, STREAMED, BUFFERED, BUFFERED_PARTIAL.
fn body_mode(n: i32) -> Option<BodyMode>
    ensures { result ≡ choice body_modes n }
{
    match n {
        0 => Some(BodyMode::NoAsk),
        1 => Some(BodyMode::Streamed),
        2 => Some(BodyMode::Buffered),
        3 => Some(BodyMode::Partial),
        _ => None,
    }
}

fn modes_of(headers: i32, body: i32, trailers: i32) -> Option<PartModes>
    ensures { result
        ≡ all_three (choice header_modes headers) (choice body_modes body) (choice trailer_modes trailers) }
{
    match (
        header_mode(headers),
        body_mode(body),
        trailer_mode(trailers),
    ) {
        (Some(headers), Some(body), Some(trailers)) => Some(PartModes {
            headers,
            body,
            trailers,
        }),
        _ => None,
    }
}

/// The modes of request and response, where each number is known: the fields of `ProcessingMode` in their order are the
/// headers, bodies and trailers of both.
pub(crate) fn both_modes(modes: &ModeNumbers) -> Option<(PartModes, PartModes)>
    ensures { result ≡ both_modes modes.now.numbers }
{
    let n = modes.numbers;
    let request = modes_of(n[0], n[2], n[4]);
    let response = modes_of(n[1], n[3], n[5]);
    match (request, response) {
        (Some(request), Some(response)) => Some((request, response)),
        _ => None,
    }
}

/// A duration in whole milliseconds, where it is at least one and at most the maximum.
pub(crate) fn valid_ms(max_ms: u64, span: Span) -> Option<u64>
    requires { max_ms ≤ 3_600_000 }
    ensures { result ≡ valid_ms max_ms (span.seconds *ℤ pos 1_000_000_000 +ℤ span.nanos) }
{
    let nanos = nanos_in(span);
    let ms = ms_in(max_ms, nanos);
    ms
}

fn nanos_in(span: Span) -> i128
    ensures { result ≡ span.seconds *ℤ pos 1_000_000_000 +ℤ span.nanos }
{
    i128::from(span.seconds) * 1_000_000_000 + i128::from(span.nanos)
}

fn ms_in(max_ms: u64, nanos: i128) -> Option<u64>
    requires { max_ms ≤ 3_600_000 }
    ensures { result ≡ valid_ms max_ms nanos }
{
    if nanos < 0 {
        return None;
    }
    let nanos = nanos as u128;
    if nanos < 1_000_000 || nanos > u128::from(max_ms) * 1_000_000 {
        return None;
    }
    Some((nanos / 1_000_000) as u64)
}
