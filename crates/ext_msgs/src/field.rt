//! Single fields.

ghost use Rattle.std.specs.Prelude.{◌≡◌, ◌+◌, ◌≤◌, length, None, IfOk, IfErr, MatchResult};
ghost use Rattle.pb_wire.specs.Cursor.{part};
ghost use Rattle.ext_msgs.specs.MessageFault.{text_fault};
ghost use Rattle.ext_msgs.specs.Parts.{Refuses};

use crate::fault::MsgFault;
use pb_wire::Blob;
use std::alloc::Global;
use std::str;

/// The bytes of a span.
pub fn span(bytes: &[u8], start: u32, len: u32) -> &[u8]
    requires { start + len ≤ length bytes.now }
    ensures { result.now ≡ part bytes.now start len }
{
    &bytes[start as usize..start as usize + len as usize]
}

/// The bytes of a span, copied.
pub fn blob(alloc: Global, bytes: &[u8], start: u32, len: u32) -> Result<Blob, MsgFault>
    requires { start + len ≤ length bytes.now }
    ensures ok { IfOk result (λ b. b ≡ part bytes.now start len) }
    ensures err { IfErr result (λ e. e ≡ MsgFault.Memory) }
{
    Ok(Blob::of(alloc, span(bytes, start, len))?)
}

/// A text, whose record is at a place.
#[tactic(auto, using(crate::proofs::Text::valid_text, crate::proofs::Text::invalid_text))]
pub fn text(alloc: Global, bytes: &[u8], place: u32, start: u32, len: u32) -> Result<Blob, MsgFault>
    requires { start + len ≤ length bytes.now }
    ensures ok { IfOk result (λ b. b ≡ part bytes.now start len) }
    ensures valid { IfOk result (λ _. text_fault place (part bytes.now start len) ≡ None) }
    ensures err { IfErr result (λ e. Refuses e (text_fault place (part bytes.now start len))) }
{
    let text = span(bytes, start, len);
    match str::from_utf8(text) {
        Ok(_) => Ok(Blob::of(alloc, text)?),
        Err(_) => Err(MsgFault::Utf8(place)),
    }
}
