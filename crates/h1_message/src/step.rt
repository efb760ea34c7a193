//! What bytes make of a stage.

ghost use Rattle.std.specs.Prelude.{◌≡◌, ◌≤◌, ◌<◌, ◌^◌, Bool, ℕ, List, [], length, IfOk, OnErr};
ghost use Rattle.http_model.specs.Heads.{message_head};
ghost use Rattle.h1_read.specs.HeadReading.{HeadState};
ghost use Rattle.h1_message.specs.Source.{Source, more, original};
ghost use Rattle.h1_message.specs.Stages.{IsGiven, IsNewHead, IsUnbegun, Stands, nothing as none, stage_behind, told as told_of, trailers_of};
ghost use Rattle.h1_message.specs.declared.stage.Stage.TheVariants.{Body};

use crate::body::{BodyFed, Next, feed_body};
use crate::head::{HeadFed, feed_head};
use crate::stage::Stage;
use ext_msgs::FieldList;
use h1_read::{BodyReader, HeadReader, Message};
use http_model::{Direction, Length};
use pb_wire::Blob;
use std::alloc::{AllocError, Global};

/// What bytes give of a message.
#[derive(Drop)]
pub(crate) struct Given {
    pub head: Option<Message>,
    pub body: Blob,
    pub trailers: FieldList,
}

/// Nothing of a message.
pub(crate) fn nothing(alloc: Global) -> Given
    ensures { result ≡ none }
{
    Given {
        head: None,
        body: Blob::new(alloc),
        trailers: FieldList::new(alloc),
    }
}

// The stage behind bytes of a body of this length, and the trailers that came.
fn behind_body(alloc: Global, length: Length, next: Next) -> (Stage, FieldList)
    ensures { result ≡ (stage_behind length next, trailers_of next) }
{
    match next {
        Next::On(reader) => (Stage::Body(length, reader), FieldList::new(alloc)),
        Next::Bad(fault) => (Stage::NoBody(fault), FieldList::new(alloc)),
        Next::Whole(trailers) => (Stage::Whole, trailers),
    }
}

// The stage behind bytes of a head, where it isn't the head that goes on, and what came.
fn told(alloc: Global, fed: HeadFed) -> (Option<Stage>, Given)
    ensures { result ≡ told_of fed }
{
    match fed {
        HeadFed::On => (None, nothing(alloc)),
        HeadFed::Bad(fault) => (Some(Stage::NoHead(fault)), nothing(alloc)),
        HeadFed::Got(message, fed) => {
            let BodyFed { content, next } = fed;
            let (stage, trailers) = behind_body(alloc, message.length, next);
            let given = Given {
                head: Some(message),
                body: content,
                trailers,
            };
            (Some(stage), given)
        }
    }
}

// A reader of a head of which nothing came.
fn head_reader(alloc: Global, direction: Direction, to_head: bool) -> Result<HeadReader, AllocError>
    ensures { IfOk result (IsNewHead direction to_head) }
{
    match direction {
        Direction::Request => HeadReader::request(alloc),
        Direction::Response => HeadReader::response(alloc, to_head),
    }
}

// The first bytes of a message.
fn begin(
    alloc: Global,
    direction: Direction,
    to_head: bool,
    bytes: &[u8],
) -> Result<(Stage, Given), AllocError>
    requires some { 0 < length bytes.now }
    requires small { length bytes.now < 2 ^ 32 }
    ensures gives { (s : Source) → IsUnbegun s direction to_head → IfOk result (λ r.
        Stands (more bytes.now s) r.0 × IsGiven (original s) (original (more bytes.now s)) r.1) }
    ensures short { IfOk result (λ r. length r.1.body ≤ length bytes.now) }
{
    let mut reader = head_reader(alloc, direction, to_head)?;
    let fed = feed_head(alloc, &mut reader, bytes)?;
    let (next, given) = told(alloc, fed);
    match next {
        Some(stage) => Ok((stage, given)),
        None => Ok((Stage::Head(reader), given)),
    }
}

// More bytes of a body. They are read by a copy of its reader, which keeps mostly none, so that the reader stays as it
// was where memory runs out.
fn go_on(
    alloc: Global,
    framed: Length,
    reader: &BodyReader,
    bytes: &[u8],
) -> Result<(Stage, Given), AllocError>
    requires small { length bytes.now < 2 ^ 32 }
    ensures gives { (s : Source) → Stands s (Body framed reader.now) → IfOk result (λ r.
        Stands (more bytes.now s) r.0 × IsGiven (original s) (original (more bytes.now s)) r.1) }
    ensures short { IfOk result (λ r. length r.1.body ≤ length bytes.now) }
{
    let fed = feed_body(alloc, reader.copy()?, bytes)?;
    let BodyFed { content, next } = fed;
    let (stage, trailers) = behind_body(alloc, framed, next);
    let given = Given {
        head: None,
        body: content,
        trailers,
    };
    Ok((stage, given))
}

/// Reads on in a message; out of memory leaves the stage as it was.
pub(crate) fn step(alloc: Global, stage: &mut Stage, bytes: &[u8]) -> Result<Given, AllocError>
    requires { length bytes.now < 2 ^ 32 }
    ensures gives { (s : Source) → Stands s stage.old → IfOk result (λ given.
        Stands (more bytes.now s) stage.new × IsGiven (original s) (original (more bytes.now s)) given) }
    ensures short { IfOk result (λ given. length given.body ≤ length bytes.now) }
    ensures unchanged { OnErr result (stage.new ≡ stage.old) }
{
    match stage {
        Stage::Unbegun(direction, to_head) => {
            if bytes.is_empty() {
                return Ok(nothing(alloc));
            }
            let (next, given) = begin(alloc, *direction, *to_head, bytes)?;
            *stage = next;
            Ok(given)
        }
        Stage::Head(reader) => {
            let fed = feed_head(alloc, reader, bytes)?;
            let (next, given) = told(alloc, fed);
            match next {
                Some(next) => {
                    *stage = next;
                    Ok(given)
                }
                None => Ok(given),
            }
        }
        Stage::Body(length, reader) => {
            let (next, given) = go_on(alloc, *length, reader, bytes)?;
            *stage = next;
            Ok(given)
        }
        Stage::NoHead(_) => Ok(nothing(alloc)),
        Stage::NoBody(_) => Ok(nothing(alloc)),
        Stage::Whole => Ok(nothing(alloc)),
    }
}
