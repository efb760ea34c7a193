//! One direction of a message.

ghost use Rattle.std.specs.Prelude.{◌≡◌, ◌≤◌, [], length, IfOk};
ghost use Rattle.body_hold.specs.Held.{held};
ghost use Rattle.filter_model.specs.Config.{CourseConfig};
ghost use Rattle.filter_model.specs.Course.{body_room, is_over, out};
ghost use Rattle.filter_model.specs.Half.{Past, course};
ghost use Rattle.half_machine.specs.Stands.{StandsFor, FitsSetup, direction_of};

use crate::asking::MARK;
use crate::due::PIECE;
use crate::facts::{
    Arrived, Asked, Counts, Gone, Ruled, is_buffered, is_collecting, is_settled, mode_of,
};
use crate::lengths::Lengths;
use crate::marks::Marks;
use crate::ready::Ready;
use body_hold::Hold;
use ext_msgs::FieldList;
use header_mutation::{HalfSetup, Rules};
use http_model::{Direction, Framing, Length};
use std::alloc::{AllocError, Global};

/// One direction of a message on its way through the filter.
///
/// It is told what is read, answered, sent and given, and keeps of all that only what the next answers need: the head
/// and trailers as answers change them so far, the body bytes that weren't handed out, and a few counts. Bytes that
/// pass unasked stay at hand until they are handed out.
#[derive(Drop)]
pub struct Half {
    pub(crate) alloc: Global,
    pub(crate) direction: Direction,
    pub(crate) rules: Rules,
    pub(crate) limit: u32,
    pub(crate) arrived: Arrived,
    pub(crate) rule: Ruled,
    pub(crate) asked: Asked,
    pub(crate) counts: Counts,
    pub(crate) gone: Gone,
    pub(crate) hold: Hold,
    pub(crate) pieces: Lengths,
    pub(crate) marks: Marks,
    pub(crate) ready: Ready,
    pub(crate) head: Option<FieldList>,
    pub(crate) trailers: FieldList,
}

fn direction(response: bool) -> Direction
    ensures { result ≡ direction_of response }
{
    if response {
        return Direction::Response;
    }
    Direction::Request
}

impl Half {
    /// A half that was told nothing. It reserves what all calls need that take no memory.
    pub fn new(alloc: Global, setup: HalfSetup) -> Result<Half, AllocError>
        requires least { 1 ≤ setup.buffer_limit }
        requires limit { setup.buffer_limit ≤ 1_048_576 }
        requires least_answer { 1_024 ≤ setup.answer_limit }
        requires answer { setup.answer_limit ≤ 2_097_152 }
        ensures { IfOk result (λ x. (c : CourseConfig) → FitsSetup c setup → StandsFor (record {
          config = c;
          direction = direction_of setup.response;
          modes = setup.modes;
          steps = [];
        }) x) }
    {
        let hold = Hold::new(alloc, setup.buffer_limit, setup.answer_limit)?;
        let marks = Marks::new(alloc)?;
        Ok(Half {
            alloc,
            direction: direction(setup.response),
            rules: setup.rules,
            limit: setup.buffer_limit,
            arrived: Arrived {
                head: false,
                framed: Length::NoBody,
                own: Framing::NoField,
                whole: false,
                trailers: false,
                bytes: 0,
            },
            rule: Ruled {
                modes: setup.modes,
                released: false,
                stopped: false,
                passes: false,
                replaced: false,
                headers_answered: false,
                body_answered: false,
            },
            asked: Asked {
                any: false,
                body: false,
                last: false,
                trailers: false,
                unsent: 0,
                unhanded: 0,
            },
            counts: Counts {
                unasked: 0,
                pieces: 0,
                waiting: 0,
            },
            gone: Gone {
                framing: None,
                head: false,
                trailers: false,
                ended: false,
            },
            hold,
            pieces: Lengths::new(alloc),
            marks,
            ready: Ready::new(alloc),
            head: None,
            trailers: FieldList::new(alloc),
        })
    }

    /// How many asks are out.
    pub fn asks_out(&self) -> u32
        ensures { (p : Past) → StandsFor p self.now → result ≡ length (out (course p)) }
    {
        self.marks.len()
    }

    /// How many body bytes are kept.
    pub fn held(&self) -> u64
        ensures { result ≡ held self.now.hold }
    {
        self.hold.held()
    }

    /// How many body bytes may come.
    pub fn room(&self) -> u32
        ensures { (p : Past) → StandsFor p self.now → result ≡ body_room p.config p.direction (course p) }
    {
        let most = if is_collecting(&self.arrived, &self.rule, &self.asked) {
            self.limit.saturating_add(1)
        } else {
            MARK
        };
        most.saturating_sub(self.counts.unasked).min(PIECE)
    }

    /// Whether a body that is to be asked at once is longer than its limit.
    pub fn over_limit(&self) -> bool
        ensures { (p : Past) → StandsFor p self.now → result ≡ is_over p.config (course p) }
    {
        is_settled(&self.arrived, &self.rule)
            && is_buffered(mode_of(&self.rule))
            && self.limit < self.arrived.bytes
    }
}
