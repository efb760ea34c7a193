//! The first line and the fields of a head, within its limits: RFC 9112 sections 2 to 5.

ghost use Rattle.std.specs.Prelude.{◌≡◌, ◌++◌, ◌≤◌, ◌<◌, length, take, drop, IfOk};
ghost use Rattle.http_model.specs.Reading as reading;
ghost use Rattle.h1_read.specs.Limits.{section_seen as seen_of};
ghost use Rattle.h1_read.specs.Parsed.{digits_of};
ghost use Rattle.h1_read.specs.HeadParts.{IsRequestRead, IsResponseRead};

use crate::fields::all_fields;
use crate::parse::{RequestParse, ResponseParse, request_parse, response_parse};
use crate::scan::{MAX_FIELDS, MAX_HEAD, behind, first_line_end, front, is_crowded, section_seen};
use ext_msgs::Field;
use httparse::spans::EMPTY_HEADER_SPAN;
use pb_wire::Blob;
use std::alloc::{AllocError, Global};

/// The parts of a request head.
#[derive(Drop)]
pub struct RequestParts {
    pub method: Blob,
    pub target: Blob,
    /// 0 for HTTP/1.0, and 1 for HTTP/1.1.
    pub minor: u8,
    /// All of its fields, with their names in lower case.
    pub fields: Vec<Field>,
}

/// The parts of a response head.
#[derive(Drop)]
pub struct ResponseParts {
    /// The three digits of its status.
    pub status: [u8; 3],
    /// 0 for HTTP/1.0, and 1 for HTTP/1.1.
    pub minor: u8,
    /// All of its fields, with their names in lower case.
    pub fields: Vec<Field>,
}

/// What the bytes so far give of a request head.
#[derive(Drop)]
pub enum RequestRead {
    /// It is whole, and takes so many bytes.
    Whole(RequestParts, usize),
    Partial,
    Bad,
    Long,
}

/// What the bytes so far give of a response head.
#[derive(Drop)]
pub enum ResponseRead {
    /// It is whole, and takes so many bytes.
    Whole(ResponseParts, usize),
    Partial,
    Bad,
    Long,
}

// The bytes of a head before a field too many, where its section begins at `at`.
fn head_seen(front: &[u8], at: usize) -> &[u8]
    requires { at ≤ length front.now }
    ensures { result.now ≡ take at front.now ++ seen_of (drop at front.now) }
{
    &front[..at + section_seen(behind(front, at)).len()]
}

/// Reads the head of a request from all of its bytes so far.
pub fn read_request(alloc: Global, bytes: &[u8]) -> Result<RequestRead, AllocError>
    ensures { IfOk result (IsRequestRead bytes.now) }
{
    let front = front(bytes);
    let Some(at) = first_line_end(front) else {
        if bytes.len() < MAX_HEAD {
            return Ok(RequestRead::Partial);
        }
        return Ok(RequestRead::Long);
    };
    let seen = head_seen(front, at);
    let mut spans = [EMPTY_HEADER_SPAN; MAX_FIELDS];
    match request_parse(seen, &mut spans) {
        RequestParse::Whole(r) => {
            let method = Blob::of(alloc, r.method.of(seen))?;
            let target = Blob::of(alloc, r.path.of(seen))?;
            let minor = r.version;
            let fields = all_fields(alloc, seen, &spans[..r.headers])?;
            let parts = RequestParts {
                method,
                target,
                minor,
                fields,
            };
            Ok(RequestRead::Whole(parts, r.len))
        }
        RequestParse::Partial => {
            if is_crowded(behind(front, at)) {
                return Ok(RequestRead::Long);
            }
            if bytes.len() < MAX_HEAD {
                return Ok(RequestRead::Partial);
            }
            Ok(RequestRead::Long)
        }
        RequestParse::Bad => Ok(RequestRead::Bad),
    }
}

// The three decimal digits of a number.
fn three_digits(code: u16) -> [u8; 3]
    requires { code < 1000 }
    ensures { result ≡ digits_of code }
{
    [
        b'0' + (code / 100) as u8,
        b'0' + (code / 10 % 10) as u8,
        b'0' + (code % 10) as u8,
    ]
}

/// Reads the head of a response, interim or not, from all of its bytes so far.
pub fn read_response(alloc: Global, bytes: &[u8]) -> Result<ResponseRead, AllocError>
    ensures { IfOk result (IsResponseRead bytes.now) }
{
    let front = front(bytes);
    let Some(at) = first_line_end(front) else {
        if bytes.len() < MAX_HEAD {
            return Ok(ResponseRead::Partial);
        }
        return Ok(ResponseRead::Long);
    };
    let seen = head_seen(front, at);
    let mut spans = [EMPTY_HEADER_SPAN; MAX_FIELDS];
    match response_parse(seen, &mut spans) {
        ResponseParse::Whole(r) => {
            let status = three_digits(r.code);
            let minor = r.version;
            let fields = all_fields(alloc, seen, &spans[..r.headers])?;
            let parts = ResponseParts {
                status,
                minor,
                fields,
            };
            Ok(ResponseRead::Whole(parts, r.len))
        }
        ResponseParse::Partial => {
            if is_crowded(behind(front, at)) {
                return Ok(ResponseRead::Long);
            }
            if bytes.len() < MAX_HEAD {
                return Ok(ResponseRead::Partial);
            }
            Ok(ResponseRead::Long)
        }
        ResponseParse::Bad => Ok(ResponseRead::Bad),
    }
}
