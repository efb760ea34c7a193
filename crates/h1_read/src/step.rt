//! What all bytes of a head so far give, behind interim responses: RFC 9110 section 15.2.

ghost use Rattle.std.specs.Prelude.{◌≡◌, codes};
ghost use Rattle.http_model.specs.Bytes.{begins_with};
ghost use Rattle.http_model.specs.declared.types.Direction.TheVariants.{Request, Response};
ghost use Rattle.h1_read.specs.Steps.{IsTurn, IsStep};
ghost use Rattle.std.specs.Prelude.{Bool};

use crate::fault::H1Fault;
use crate::head::{RequestRead, ResponseRead, read_request, read_response};
use crate::message::{Message, request_message, response_message};
use crate::scan::behind;
use http_model::Direction;
use std::alloc::Global;

/// The first response of some bytes.
#[derive(Drop)]
pub enum Turn {
    /// An interim response, which takes so many bytes.
    Interim(usize),
    /// Another response, whose head takes so many bytes.
    Final(Message, usize),
    Open,
}

/// The message whose head some bytes are.
#[derive(Drop)]
pub enum Step {
    /// Its head, and how many bytes were used.
    Got(Message, usize),
    /// An unfinished head begins behind so many bytes.
    Left(usize),
}

/// Reads the head of a request from all of its bytes so far.
#[tactic(auto, using(crate::proofs::TurnLaw::request_got, crate::proofs::TurnLaw::request_fails, crate::proofs::TurnLaw::request_left, crate::proofs::TurnLaw::request_bad, crate::proofs::TurnLaw::request_long))]
pub fn request_step(alloc: Global, bytes: &[u8]) -> Result<Step, H1Fault>
    ensures { (to_head : Bool) → IsStep Request to_head bytes.now result }
{
    match read_request(alloc, bytes)? {
        RequestRead::Whole(parts, used) => {
            let message = request_message(alloc, &parts)?;
            Ok(Step::Got(message, used))
        }
        RequestRead::Partial => Ok(Step::Left(0)),
        RequestRead::Bad => Err(H1Fault::BadHead),
        RequestRead::Long => Err(H1Fault::LongHead),
    }
}

// Whether a status is of an interim response.
fn is_interim(status: &[u8]) -> bool
    ensures { result ≡ begins_with (codes "1") status.now }
{
    status.starts_with(b"1")
}

// Reads the first response; 101 can't be taken.
#[tactic(auto, using(crate::proofs::TurnLaw::turn_interim, crate::proofs::TurnLaw::turn_101, crate::proofs::TurnLaw::turn_final, crate::proofs::TurnLaw::turn_fault, crate::proofs::TurnLaw::turn_bad, crate::proofs::TurnLaw::turn_long))]
fn response_turn(alloc: Global, to_head: bool, bytes: &[u8]) -> Result<Turn, H1Fault>
    ensures { IsTurn to_head bytes.now result }
{
    match read_response(alloc, bytes)? {
        ResponseRead::Whole(parts, used) => {
            if !is_interim(&parts.status) {
                let message = response_message(alloc, to_head, &parts)?;
                return Ok(Turn::Final(message, used));
            }
            if &parts.status == b"101" {
                return Err(H1Fault::BadHead);
            }
            Ok(Turn::Interim(used))
        }
        ResponseRead::Partial => Ok(Turn::Open),
        ResponseRead::Bad => Err(H1Fault::BadHead),
        ResponseRead::Long => Err(H1Fault::LongHead),
    }
}

/// Reads the head of a response that isn't interim from all bytes so far.
#[tactic(auto, using(crate::proofs::TurnLaw::run_starts, crate::proofs::TurnLaw::run_goes_on, crate::proofs::TurnLaw::run_ends, crate::proofs::TurnLaw::run_waits, crate::proofs::TurnLaw::run_fails, crate::proofs::TurnLaw::run_over))]
pub fn response_step(alloc: Global, to_head: bool, bytes: &[u8]) -> Result<Step, H1Fault>
    ensures { IsStep Response to_head bytes.now result }
{
    let mut at = 0;
    for i in 0..bytes.len() as u64 + 1 {
        match response_turn(alloc, to_head, behind(bytes, at)) {
            Ok(Turn::Interim(used)) => at += used,
            Ok(Turn::Final(message, used)) => return Ok(Step::Got(message, at + used)),
            Ok(Turn::Open) => return Ok(Step::Left(at)),
            Err(fault) => return Err(fault),
        }
    }
    unreachable!()
}

/// Reads the head of a message from all bytes so far.
pub fn read_step(
    alloc: Global,
    direction: Direction,
    to_head: bool,
    bytes: &[u8],
) -> Result<Step, H1Fault>
    ensures { IsStep direction to_head bytes.now result }
{
    match direction {
        Direction::Request => request_step(alloc, bytes),
        Direction::Response => response_step(alloc, to_head, bytes),
    }
}
