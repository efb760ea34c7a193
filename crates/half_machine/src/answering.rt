//! How an answer changes a half.

ghost use Rattle.std.specs.Prelude.{◌≡◌, ◌<◌, ◌≤◌, None, length, is_some, unwrap_or, [], IfOk, IfErr, OnOk, OnErr};
ghost use Rattle.filter_model.specs.Course.{new_piece};
ghost use Rattle.filter_model.specs.Half.{Past, after_step, Told, Answer, course, refusal, kind_numbered};
ghost use Rattle.half_machine.specs.Answering.{with_ready, without_oldest, new_bytes, brings_other, with_headers_answer, change_by, piece_for, with_piece, with_body_answer, with_trailers_answer, with_answer, CanJoin, CanJoinHeaders, CanJoinPiece, MayAnswer};
ghost use Rattle.body_hold.specs.Steps.{new_piece as piece_back};
ghost use Rattle.half_machine.specs.Handing.{IsThere};
ghost use Rattle.half_machine.specs.Judging.{IsCause, cause_in};
ghost use Rattle.half_machine.specs.Stands.{StandsFor, Stands};
ghost use Rattle.half_machine.specs.declared.marks.Mark.TheVariants as of;

use crate::choosing::is_bare;
use crate::facts::is_buffered;
use crate::half::Half;
use crate::marks::Mark;
use body_hold::Change;
use ext_msgs::{BodyChange, Common, PartAnswer};
use header_mutation::HalfFault;
use pb_wire::Duplicate;
use std::alloc::{AllocError, Global};

// Whether something takes the place of a piece.
fn is_new(change: &BodyChange) -> bool
    ensures { result ≡ is_some (new_piece change.now) }
{
    match change {
        BodyChange::Bytes(_) => true,
        BodyChange::Clear(clear) => *clear,
        BodyChange::Absent | BodyChange::Streamed(_, _) => false,
    }
}

// What takes its place.
fn new_bytes(change: &BodyChange) -> &[u8]
    ensures { result.now ≡ new_bytes change.now }
{
    match change {
        BodyChange::Bytes(bytes) => bytes.bytes(),
        BodyChange::Absent | BodyChange::Clear(_) | BodyChange::Streamed(_, _) => b"".as_slice(),
    }
}

fn change_by(change: &BodyChange) -> Result<Change, AllocError>
    ensures { IfOk result (λ made. made ≡ change_by change.now) }
{
    match change {
        BodyChange::Bytes(bytes) => {
            let bytes = bytes.copy()?;
            Ok(Change::Replace(bytes))
        }
        BodyChange::Clear(true) => Ok(Change::Clear),
        BodyChange::Absent | BodyChange::Clear(false) | BodyChange::Streamed(_, _) => {
            Ok(Change::Keep)
        }
    }
}

impl Half {
    /// An answer to the oldest ask out, of its part: 0 headers, 1 body, 2 trailers. One that is refused, or for which
    /// memory runs out, changes nothing.
    pub fn answer(&mut self, answer: &PartAnswer) -> Result<(), HalfFault>
        requires { Stands self.old (λ p. MayAnswer p answer.now.common) }
        ensures taken { (p : Past) → StandsFor p self.old → OnOk result
            (refusal p.config p.direction (course p) (kind_numbered answer.now.part) answer.now.common ≡ None) }
        ensures refused { (p : Past) → StandsFor p self.old → IfErr result (λ fault. IsCause
            (refusal p.config p.direction (course p) (kind_numbered answer.now.part) answer.now.common) fault) }
        ensures stands { (p : Past) → StandsFor p self.old → MayAnswer p answer.now.common
            → OnOk result (StandsFor (after_step (Told (Answer answer.now.common)) p) self.new) }
        ensures unchanged { OnErr result (self.new ≡ self.old) }
    {
        let Some(mark) = self.answered_mark(answer) else {
            return Err(HalfFault::Spurious);
        };
        if self.rule.released {
            self.judge(mark, &answer.common.headers)?;
            self.go_on();
            return Ok(());
        }
        self.join(mark, &answer.common)?;
        self.go_on();
        Ok(())
    }

    fn join(&mut self, mark: Mark, common: &Common) -> Result<(), HalfFault>
        requires there { IsThere self.old mark 0 }
        requires can { CanJoin mark common.now self.old }
        ensures joined { OnOk result (self.new ≡ with_answer mark common.now self.old) }
        ensures ok { OnOk result (cause_in self.old common.now.headers mark ≡ None) }
        ensures err { IfErr result (λ fault. IsCause (cause_in self.old common.now.headers mark) fault) }
        ensures unchanged { OnErr result (self.new ≡ self.old) }
    {
        match mark {
            Mark::Headers => self.join_headers(common),
            Mark::Body(last) => self.join_body(last, common),
            Mark::Trailers => self.join_trailers(common),
        }
    }

    fn brings_other(&self, common: &Common) -> bool
        ensures { result ≡ brings_other self.now common.now }
    {
        !is_bare(self.direction, self.arrived.framed) && common.replace && is_new(&common.body)
    }

    fn join_headers(&mut self, common: &Common) -> Result<(), HalfFault>
        requires { CanJoinHeaders self.old common.now }
        ensures joined { OnOk result (self.new ≡ with_headers_answer common.now self.old) }
        ensures ok { OnOk result (cause_in self.old common.now.headers of.Headers ≡ None) }
        ensures err { IfErr result (λ fault. IsCause (cause_in self.old common.now.headers of.Headers) fault) }
        ensures unchanged { OnErr result (self.new ≡ self.old) }
    {
        let head = self.head_under(&common.headers)?;
        if self.brings_other(common) {
            let bytes = new_bytes(&common.body);
            self.take_oldest(Mark::Headers, common.replace, bytes.len() as u32)
                .map_err(|_| HalfFault::Memory)?;
            self.rule.replaced = true;
            self.counts.unasked = 0;
            self.hold.replace_hand(bytes);
        } else {
            self.take_oldest(Mark::Headers, common.replace, 0)
                .map_err(|_| HalfFault::Memory)?;
        }
        self.head = head;
        self.rule.headers_answered = true;
        self.rule.passes = common.replace;
        Ok(())
    }

    // Of a body that is asked whole the mutation is applied; that of a piece is judged alone.
    fn join_body(&mut self, last: bool, common: &Common) -> Result<(), HalfFault>
        requires there { IsThere self.old (of.Body last) 0 }
        requires can { CanJoinPiece self.old common.now }
        ensures joined { OnOk result (self.new ≡ with_body_answer last common.now self.old) }
        ensures ok { OnOk result (cause_in self.old common.now.headers of.Headers ≡ None) }
        ensures err { IfErr result (λ fault. IsCause (cause_in self.old common.now.headers of.Headers) fault) }
        ensures unchanged { OnErr result (self.new ≡ self.old) }
    {
        if is_buffered(self.rule.modes.body) {
            let head = self.head_under(&common.headers)?;
            self.join_piece(last, common)
                .map_err(|_| HalfFault::Memory)?;
            self.head = head;
            return Ok(());
        }
        self.judge(Mark::Body(last), &common.headers)?;
        self.join_piece(last, common)
            .map_err(|_| HalfFault::Memory)?;
        Ok(())
    }

    fn join_piece(&mut self, last: bool, common: &Common) -> Result<(), AllocError>
        requires there { IsThere self.old (of.Body last) 0 }
        requires can { CanJoinPiece self.old common.now }
        ensures joined { OnOk result (self.new ≡ with_piece last common.now self.old) }
        ensures unchanged { OnErr result (self.new ≡ self.old) }
    {
        let change = change_by(&common.body)?;
        let length = self.piece_length(&common.body);
        self.take_oldest(Mark::Body(last), common.replace, length)?;
        self.rule.body_answered = true;
        self.counts.pieces += length;
        self.hold.back(change);
        Ok(())
    }

    // How many bytes go out for the oldest piece.
    fn piece_length(&self, change: &BodyChange) -> u32
        requires lent { 0 < length self.now.hold.lent }
        requires short { length (piece_back (change_by change.now) self.now.hold.lent) ≤ 4_294_967_295 }
        ensures { result ≡ length (piece_back (change_by change.now) self.now.hold.lent) }
    {
        if is_new(change) {
            return new_bytes(change).len() as u32;
        }
        self.hold.lent_piece(0).len() as u32
    }

    fn join_trailers(&mut self, common: &Common) -> Result<(), HalfFault>
        requires { 0 < length self.old.marks }
        ensures joined { OnOk result (self.new ≡ with_trailers_answer common.now self.old) }
        ensures ok { OnOk result (cause_in self.old common.now.headers of.Trailers ≡ None) }
        ensures err { IfErr result (λ fault. IsCause (cause_in self.old common.now.headers of.Trailers) fault) }
        ensures unchanged { OnErr result (self.new ≡ self.old) }
    {
        let trailers = self.trailers_under(&common.headers)?;
        self.take_oldest(Mark::Trailers, common.replace, 0)
            .map_err(|_| HalfFault::Memory)?;
        self.trailers = trailers;
        Ok(())
    }

    // The oldest ask is out no more, and a piece of so many bytes waits.
    fn take_oldest(&mut self, mark: Mark, replace: bool, piece: u32) -> Result<(), AllocError>
        requires there { IsThere self.old mark 0 }
        requires out { 0 < length self.old.marks }
        ensures taken { OnOk result (self.new ≡ without_oldest mark replace piece self.old) }
        ensures unchanged { OnErr result (self.new ≡ self.old) }
    {
        self.pieces.push_piece(piece)?;
        if let Err(e) = self.keep_unhanded(mark) {
            self.pieces.take_back(piece);
            return Err(e);
        }
        self.marks.drop_first();
        self.rule.stopped = self.rule.stopped || replace;
        Ok(())
    }

    // Nothing but the ask itself is kept of one that is answered.
    fn keep_unhanded(&mut self, mark: Mark) -> Result<(), AllocError>
        requires { IsThere self.old mark 0 }
        ensures kept { OnOk result (self.new ≡ with_ready mark self.old) }
        ensures unchanged { OnErr result (self.new ≡ self.old) }
    {
        if self.asked.unhanded < self.marks.len() {
            return Ok(());
        }
        let ask = self.ask_for(mark, 0)?;
        self.ready.push(ask)?;
        Ok(())
    }
}
