//! The fields of a head or of a trailer section, by where they stand.

ghost use Rattle.std.specs.Prelude.{◌≡◌, length, map, All, IfOk};
ghost use Rattle.httparse.specs.Spans.{IsHeaderWithin};
ghost use Rattle.http_model.specs.Bytes.{is_one_of, without, owned_names};
ghost use Rattle.h1_read.specs.Parsed.{span_field};

use crate::text::lower_copy;
use ext_msgs::{Field, FieldList};
use httparse::spans::HeaderSpan;
use pb_wire::Blob;
use std::alloc::{AllocError, Global};

// The name in lower case, and the value.
fn field_at(alloc: Global, bytes: &[u8], span: HeaderSpan) -> Result<Field, AllocError>
    requires { IsHeaderWithin (length bytes.now) span }
    ensures { IfOk result (λ field. field ≡ span_field bytes.now span) }
{
    let name = lower_copy(alloc, span.name.of(bytes))?;
    let value = Blob::of(alloc, span.value.of(bytes))?;
    Ok(Field { name, value })
}

/// The fields that stand there.
pub fn all_fields(
    alloc: Global,
    bytes: &[u8],
    spans: &[HeaderSpan],
) -> Result<Vec<Field>, AllocError>
    requires { All (IsHeaderWithin (length bytes.now)) spans.now }
    ensures { IfOk result (λ fields. fields.items ≡ map (span_field bytes.now) spans.now) }
{
    let mut fields = Vec::new(alloc);
    for span in spans {
        fields.push(field_at(alloc, bytes, *span)?)?;
    }
    Ok(fields)
}

/// Whether a name speaks of one connection or of the framing, or is `expect`: RFC 9110 section 7.6.1.
pub fn is_owned(name: &[u8]) -> bool
    ensures { result ≡ is_one_of owned_names name.now }
{
    name == b"content-length".as_slice()
        || name == b"transfer-encoding".as_slice()
        || name == b"connection".as_slice()
        || name == b"keep-alive".as_slice()
        || name == b"proxy-connection".as_slice()
        || name == b"te".as_slice()
        || name == b"trailer".as_slice()
        || name == b"upgrade".as_slice()
        || name == b"expect".as_slice()
}

/// The fields that stand there, without owned names.
pub fn trailer_fields(
    alloc: Global,
    bytes: &[u8],
    spans: &[HeaderSpan],
) -> Result<FieldList, AllocError>
    requires { All (IsHeaderWithin (length bytes.now)) spans.now }
    ensures { IfOk result (λ l. l ≡ without owned_names (map (span_field bytes.now) spans.now)) }
{
    let mut fields = FieldList::new(alloc);
    for span in spans {
        let field = field_at(alloc, bytes, *span)?;
        if !is_owned(field.name.bytes()) {
            fields.push(field)?;
        }
    }
    Ok(fields)
}
