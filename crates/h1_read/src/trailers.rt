//! A trailer section in any cut: RFC 9112 section 7.1.2.

ghost use Rattle.std.specs.Prelude.{◌≡◌, ◌<◌, ◌^◌, length, IfOk, OnErr};
ghost use Rattle.http_model.specs.Reading.{Partial};
ghost use Rattle.h1_read.specs.Sections.{trailer_section};
ghost use Rattle.h1_read.specs.KeptSections.{IsSectionKept};

use crate::section::{SectionRead, read_section};
use std::alloc::{AllocError, Global};

const LIMIT: usize = 32_768;

/// Reads a trailer section that began with the kept bytes; of one that goes on all bytes are kept.
pub(crate) fn keep_section(
    alloc: Global,
    kept: &mut Vec<u8>,
    bytes: &[u8],
) -> Result<SectionRead, AllocError>
    requires begun { trailer_section kept.old.items ≡ Partial }
    requires short { length bytes.now < 2 ^ 32 }
    ensures exact { IfOk result (IsSectionKept kept.old.items bytes.now kept.new.items) }
    ensures memory { OnErr result (kept.new.items ≡ kept.old.items) }
{
    let old = kept.as_slice().len();
    let part = bytes.len().min(LIMIT - old);
    kept.extend_from_slice(&bytes[..part])?;
    match read_section(alloc, kept.as_slice()) {
        Ok(SectionRead::Whole(trailers, used)) => {
            kept.truncate(old);
            Ok(SectionRead::Whole(trailers, used - old as u32))
        }
        Ok(SectionRead::Partial) => Ok(SectionRead::Partial),
        Ok(SectionRead::Bad) => {
            kept.truncate(old);
            Ok(SectionRead::Bad)
        }
        Ok(SectionRead::Long) => {
            kept.truncate(old);
            Ok(SectionRead::Long)
        }
        Err(e) => {
            kept.truncate(old);
            Err(e)
        }
    }
}
