//! Answers. The parts of a line, between commas:
//!
//! | part | says |
//! |---|---|
//! | `headers`, `body`, `trailers` | which ask it answers |
//! | `replace` | its status is CONTINUE_AND_REPLACE |
//! | `bytes TEXT`, `clear`, `streamed TEXT` | its body change |
//! | `set NAME=VALUE` | a field that takes the place of those of its name |
//! | `remove NAME` | a removal |

use crate::text::{bytes_of, field_of};
use anyhow::{Result, bail};
use ext_msgs::{BodyChange, Common, HeaderMutation, NameList, PartAnswer, SetField, SetList};
use pb_wire::Blob;
use std::alloc::Global;

// The action by which a field takes the place of those of its name, or is added where there are none.
const OVERWRITE_OR_ADD: u8 = 2;

fn blob(alloc: Global, text: &str) -> Result<Blob> {
    let bytes = bytes_of(alloc, text)?;
    Ok(Blob::of(alloc, bytes.as_slice())?)
}

fn add(alloc: Global, answer: &mut PartAnswer, kind: &str, text: &str) -> Result<()> {
    match kind {
        "headers" => answer.part = 0,
        "body" => answer.part = 1,
        "trailers" => answer.part = 2,
        "replace" => answer.common.replace = true,
        "bytes" => answer.common.body = BodyChange::Bytes(blob(alloc, text)?),
        "clear" => answer.common.body = BodyChange::Clear(true),
        "streamed" => answer.common.body = BodyChange::Streamed(blob(alloc, text)?, false),
        "set" => {
            let field = field_of(alloc, text)?;
            answer.common.headers.set.push(SetField {
                name: field.name,
                value: field.value,
                action: OVERWRITE_OR_ADD,
            })?;
        }
        "remove" => answer.common.headers.remove.push(blob(alloc, text)?)?,
        _ => bail!("no part: {kind}"),
    }
    Ok(())
}

/// `PART, ..`
pub fn answer_of(alloc: Global, parts: &str) -> Result<PartAnswer> {
    let mut answer = PartAnswer {
        part: 0,
        common: Common {
            replace: false,
            headers: HeaderMutation {
                set: SetList::new(alloc),
                remove: NameList::new(alloc),
            },
            body: BodyChange::Absent,
        },
    };
    for part in parts.split(", ") {
        let (kind, text) = part.split_once(' ').unwrap_or((part, ""));
        add(alloc, &mut answer, kind, text)?;
    }
    Ok(answer)
}
