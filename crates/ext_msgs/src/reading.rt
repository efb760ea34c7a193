//! Reading whole messages.

ghost use Rattle.std.specs.Prelude.{◌<◌, ◌^◌, length};
ghost use Rattle.ext_msgs.specs.Messages.{answer_of, ask_of, IsRead};

use crate::answer::Answer;
use crate::answer_parts::AnswerParts;
use crate::ask::Ask;
use crate::ask_parts::AskParts;
use crate::fault::MsgFault;
use crate::message::read;
use std::alloc::Global;

/// Reads a `ProcessingResponse`. Fields come in any order, unknown ones are skipped, the last value of a field
/// counts, and the occurrences of an embedded message are joined (protobuf.dev, "Encoding"). The first fault in the
/// order of the records, depth first, is the answer; that no member is set comes last.
pub fn read_answer(alloc: Global, bytes: &[u8]) -> Result<Answer, MsgFault>
    requires { length bytes.now < 2 ^ 32 }
    ensures { IsRead result (answer_of bytes.now) }
{
    let len = bytes.len() as u32;
    let parts: AnswerParts = read(alloc, bytes, 0, len)?;
    parts.finish(bytes)
}

/// Reads a `ProcessingRequest`, by the same rules.
pub fn read_ask(alloc: Global, bytes: &[u8]) -> Result<Ask, MsgFault>
    requires { length bytes.now < 2 ^ 32 }
    ensures { IsRead result (ask_of bytes.now) }
{
    let len = bytes.len() as u32;
    let parts: AskParts = read(alloc, bytes, 0, len)?;
    parts.finish()
}
