//! The trailer section of a chunked body: RFC 9112 section 7.1.2.

ghost use Rattle.std.specs.Prelude.{◌<◌, ◌^◌, length, IfOk};
ghost use Rattle.h1_read.specs.Sections.{IsSectionRead};

use crate::fields::trailer_fields;
use crate::parse::{SectionParse, section_parse};
use crate::scan::{MAX_FIELDS, MAX_HEAD, front, is_crowded, section_seen};
use ext_msgs::FieldList;
use httparse::spans::EMPTY_HEADER_SPAN;
use std::alloc::{AllocError, Global};

/// What the bytes so far give of a trailer section.
#[derive(Drop)]
pub enum SectionRead {
    /// It is whole: its fields without owned names, and how many bytes it takes with the empty line at its end.
    Whole(FieldList, u32),
    /// More bytes may make it whole.
    Partial,
    /// It is outside the grammar, whatever follows.
    Bad,
    /// The first 32,768 bytes hold no whole section, or a 101st field begins.
    Long,
}

/// Reads a trailer section from all of its bytes so far.
pub fn read_section(alloc: Global, bytes: &[u8]) -> Result<SectionRead, AllocError>
    requires { length bytes.now < 2 ^ 32 }
    ensures { IfOk result (IsSectionRead bytes.now) }
{
    let front = front(bytes);
    let seen = section_seen(front);
    let mut spans = [EMPTY_HEADER_SPAN; MAX_FIELDS];
    match section_parse(seen, &mut spans) {
        SectionParse::Whole { len, count } => {
            let trailers = trailer_fields(alloc, seen, &spans[..count])?;
            Ok(SectionRead::Whole(trailers, len as u32))
        }
        SectionParse::Partial => {
            if is_crowded(front) {
                return Ok(SectionRead::Long);
            }
            if bytes.len() < MAX_HEAD {
                return Ok(SectionRead::Partial);
            }
            Ok(SectionRead::Long)
        }
        SectionParse::Bad => Ok(SectionRead::Bad),
    }
}
