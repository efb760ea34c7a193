//! `httparse`, and nothing else of it: what it says of bytes in which no field too many begins.

ghost use Rattle.std.specs.Prelude.{◌≡◌};
ghost use Rattle.http_model.specs.Reading.{BadHead, BadChunk};
ghost use Rattle.http_model.specs.Reading as reading;
ghost use Rattle.http_model.specs.Lines.{first_line, section};
ghost use Rattle.http_model.specs.Heads.{field_limit, head_lines, request_line, status_line};
ghost use Rattle.h1_read.specs.Limits.{Only};
ghost use Rattle.h1_read.specs.Parsed.{IsSectionParse, IsRequestParse, IsResponseParse};

use crate::scan::MAX_FIELDS;
use httparse::spans::{
    HeaderSpan, RequestSpans, ResponseSpans, parse_headers, parse_request, parse_response,
};
use httparse::{Error, Status};

/// Where the fields of a section stand.
#[derive(Clone, Copy, Drop)]
pub enum SectionParse {
    /// So many bytes, and so many fields.
    Whole { len: usize, count: usize },
    Partial,
    Bad,
}

/// Where the parts of a request head stand.
#[derive(Clone, Copy, Drop)]
pub enum RequestParse {
    Whole(RequestSpans),
    Partial,
    Bad,
}

/// Where the parts of a response head stand.
#[derive(Clone, Copy, Drop)]
pub enum ResponseParse {
    Whole(ResponseSpans),
    Partial,
    Bad,
}

/// Parses a trailer section, and writes where its fields are to the front of `spans`.
#[tactic(auto, using(crate::proofs::ParsedLaw::section_bad))]
pub fn section_parse(bytes: &[u8], spans: &mut [HeaderSpan; MAX_FIELDS]) -> SectionParse
    requires { Only BadChunk (section BadChunk field_limit bytes.now) }
    ensures { IsSectionParse bytes.now spans.new result }
{
    match parse_headers(bytes, spans) {
        Ok(Status::Complete((len, count))) => SectionParse::Whole { len, count },
        Ok(Status::Partial) => SectionParse::Partial,
        Err(Error::TooManyHeaders) => SectionParse::Bad,
        Err(_) => SectionParse::Bad,
    }
}

/// Parses the head of a request whose first line is whole.
#[tactic(auto, using(crate::proofs::ParsedLaw::request_bad))]
pub fn request_parse(bytes: &[u8], spans: &mut [HeaderSpan; MAX_FIELDS]) -> RequestParse
    requires begun { ¬ (first_line bytes.now ≡ reading.Partial) }
    requires room { Only BadHead (head_lines request_line bytes.now) }
    ensures { IsRequestParse bytes.now spans.new result }
{
    match parse_request(bytes, spans) {
        Ok(Status::Complete(r)) => RequestParse::Whole(r),
        Ok(Status::Partial) => RequestParse::Partial,
        Err(Error::TooManyHeaders) => RequestParse::Bad,
        Err(_) => RequestParse::Bad,
    }
}

/// Parses the head of a response whose first line is whole.
#[tactic(auto, using(crate::proofs::ParsedLaw::response_bad))]
pub fn response_parse(bytes: &[u8], spans: &mut [HeaderSpan; MAX_FIELDS]) -> ResponseParse
    requires begun { ¬ (first_line bytes.now ≡ reading.Partial) }
    requires room { Only BadHead (head_lines status_line bytes.now) }
    ensures { IsResponseParse bytes.now spans.new result }
{
    match parse_response(bytes, spans) {
        Ok(Status::Complete(r)) => ResponseParse::Whole(r),
        Ok(Status::Partial) => ResponseParse::Partial,
        Err(Error::TooManyHeaders) => ResponseParse::Bad,
        Err(_) => ResponseParse::Bad,
    }
}
