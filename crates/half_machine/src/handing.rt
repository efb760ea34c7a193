//! What a half hands out.

ghost use Rattle.std.specs.Prelude.{◌≡◌, IfOk, OnErr, unwrap_or, []};
ghost use Rattle.filter_model.specs.Answers.{ask_of};
ghost use Rattle.filter_model.specs.Course.{Headers, Body, Trailers};
ghost use Rattle.filter_model.specs.Half.{Past, next_handed};
ghost use Rattle.half_machine.specs.Stands.{StandsFor, Stands};
ghost use Rattle.half_machine.specs.Handing.{part_at, IsThere, after_ask};

use crate::facts::is_bodiless;
use crate::half::Half;
use crate::marks::Mark;
use ext_msgs::{Ask, FieldList};
use http_model::Direction;
use pb_wire::{Blob, Duplicate};
use std::alloc::AllocError;

fn headers_ask(direction: Direction, fields: FieldList, last: bool) -> Ask
    ensures { result ≡ ask_of direction (Headers fields last) }
{
    match direction {
        Direction::Request => Ask::RequestHeaders(fields, last),
        Direction::Response => Ask::ResponseHeaders(fields, last),
    }
}

fn body_ask(direction: Direction, bytes: Blob, last: bool) -> Ask
    ensures { result ≡ ask_of direction (Body bytes last) }
{
    match direction {
        Direction::Request => Ask::RequestBody(bytes, last),
        Direction::Response => Ask::ResponseBody(bytes, last),
    }
}

fn trailers_ask(direction: Direction, fields: FieldList) -> Ask
    ensures { result ≡ ask_of direction (Trailers fields) }
{
    match direction {
        Direction::Request => Ask::RequestTrailers(fields),
        Direction::Response => Ask::ResponseTrailers(fields),
    }
}

impl Half {
    /// The next ask, or none where every ask made was handed out.
    pub fn next_ask(&mut self) -> Result<Option<Ask>, AllocError>
        requires { Stands self.old (λ p. Unit {0}) }
        ensures exact { (p : Past) → StandsFor p self.old → IfOk result (λ ask. ask ≡ next_handed p) }
        ensures stands { (p : Past) → StandsFor p self.old → IfOk result (λ ask. StandsFor (after_ask ask p) self.new) }
        ensures unchanged { OnErr result (self.new ≡ self.old) }
    {
        if let Some(ask) = self.ready.take() {
            self.asked.unhanded -= 1;
            return Ok(Some(ask));
        }
        if self.asked.unhanded == 0 {
            return Ok(None);
        }
        let at = self.marks.len() - self.asked.unhanded;
        let ask = self.ask_for(self.marks.at(at), self.marks.bodies_before(at))?;
        self.asked.unhanded -= 1;
        Ok(Some(ask))
    }

    // An ask that is out, with so many of the body out before it.
    pub(crate) fn ask_for(&self, mark: Mark, before: u32) -> Result<Ask, AllocError>
        requires { IsThere self.now mark before }
        ensures { IfOk result (λ ask. ask ≡ ask_of self.now.direction (part_at self.now mark before)) }
    {
        match mark {
            Mark::Headers => {
                let fields = self.head_or_none()?;
                Ok(headers_ask(self.direction, fields, is_bodiless(self.arrived.framed)))
            }
            Mark::Body(last) => {
                let bytes = Blob::of(self.alloc, self.hold.lent_piece(before))?;
                Ok(body_ask(self.direction, bytes, last))
            }
            Mark::Trailers => {
                let fields = self.trailers.copy()?;
                Ok(trailers_ask(self.direction, fields))
            }
        }
    }

    // A copy of the head.
    pub(crate) fn head_or_none(&self) -> Result<FieldList, AllocError>
        ensures { IfOk result (λ fields. fields ≡ unwrap_or self.now.head []) }
    {
        match &self.head {
            Some(head) => head.copy(),
            None => Ok(FieldList::new(self.alloc)),
        }
    }
}
