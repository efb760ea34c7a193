//! Which answer a half takes, and what its mutation makes of a head or of trailers.

ghost use Rattle.std.specs.Prelude.{◌≡◌, None, IfOk, IfErr, OnOk};
ghost use Rattle.filter_model.specs.Course.{is_streamed_back, head_kind};
ghost use Rattle.half_machine.specs.declared.marks.Mark.TheVariants as of;
ghost use Rattle.half_machine.specs.Judging.{is_of_part, answered_mark, fault_by, IsCause, cause_in, head_under, trailers_under};

use crate::half::Half;
use crate::marks::Mark;
use ext_msgs::{BodyChange, FieldList, HeaderMutation, PartAnswer};
use header_mutation::{HalfFault, MutFault, PartKind, apply, judge};
use http_model::Direction;

fn is_of_part(mark: Mark, part: u8) -> bool
    ensures { result ≡ is_of_part mark part }
{
    match mark {
        Mark::Headers => part == 0,
        Mark::Body(_) => part == 1,
        Mark::Trailers => part > 1,
    }
}

fn is_streamed_back(change: &BodyChange) -> bool
    ensures { result ≡ is_streamed_back change.now }
{
    match change {
        BodyChange::Streamed(_, _) => true,
        BodyChange::Absent | BodyChange::Bytes(_) | BodyChange::Clear(_) => false,
    }
}

fn head_kind(direction: Direction) -> PartKind
    ensures { result ≡ head_kind direction }
{
    match direction {
        Direction::Request => PartKind::RequestHead,
        Direction::Response => PartKind::ResponseHead,
    }
}

fn fault_by(fault: MutFault) -> HalfFault
    ensures { result ≡ fault_by fault }
{
    match fault {
        MutFault::Bad(place) => HalfFault::Malformed(place),
        MutFault::Disallowed(place) => HalfFault::Disallowed(place),
        MutFault::Memory => HalfFault::Memory,
    }
}

impl Half {
    /// The oldest ask out, where the answer is one to it.
    pub(crate) fn answered_mark(&self, answer: &PartAnswer) -> Option<Mark>
        ensures { result ≡ answered_mark self.now.marks answer.now.part answer.now.common.body }
    {
        let Some(mark) = self.marks.first() else {
            return None;
        };
        if !is_of_part(mark, answer.part) || is_streamed_back(&answer.common.body) {
            return None;
        }
        Some(mark)
    }

    /// Whether a mutation may be applied. It takes no memory.
    pub(crate) fn judge(&self, mark: Mark, mutation: &HeaderMutation) -> Result<(), HalfFault>
        ensures ok { OnOk result (cause_in self.now mutation.now mark ≡ None) }
        ensures err { IfErr result (λ fault. IsCause (cause_in self.now mutation.now mark) fault) }
    {
        match mark {
            Mark::Headers | Mark::Body(_) => self.judge_head(mutation),
            Mark::Trailers => self.judge_trailers(mutation),
        }
    }

    fn judge_head(&self, mutation: &HeaderMutation) -> Result<(), HalfFault>
        ensures ok { OnOk result (cause_in self.now mutation.now of.Headers ≡ None) }
        ensures err { IfErr result (λ fault. IsCause (cause_in self.now mutation.now of.Headers) fault) }
    {
        let Some(head) = &self.head else {
            return Ok(());
        };
        match judge(&self.rules, head_kind(self.direction), head, mutation) {
            Ok(()) => Ok(()),
            Err(fault) => Err(fault_by(fault)),
        }
    }

    fn judge_trailers(&self, mutation: &HeaderMutation) -> Result<(), HalfFault>
        ensures ok { OnOk result (cause_in self.now mutation.now of.Trailers ≡ None) }
        ensures err { IfErr result (λ fault. IsCause (cause_in self.now mutation.now of.Trailers) fault) }
    {
        match judge(&self.rules, PartKind::Trailers, &self.trailers, mutation) {
            Ok(()) => Ok(()),
            Err(fault) => Err(fault_by(fault)),
        }
    }

    /// The head under a mutation.
    pub(crate) fn head_under(
        &self,
        mutation: &HeaderMutation,
    ) -> Result<Option<FieldList>, HalfFault>
        ensures head { IfOk result (λ head. head ≡ head_under self.now mutation.now) }
        ensures ok { OnOk result (cause_in self.now mutation.now of.Headers ≡ None) }
        ensures err { IfErr result (λ fault. IsCause (cause_in self.now mutation.now of.Headers) fault) }
    {
        let Some(head) = &self.head else {
            return Ok(None);
        };
        match apply(
            self.alloc,
            &self.rules,
            head_kind(self.direction),
            head,
            mutation,
        ) {
            Ok(fields) => Ok(Some(fields)),
            Err(fault) => Err(fault_by(fault)),
        }
    }

    /// The trailers under a mutation.
    pub(crate) fn trailers_under(&self, mutation: &HeaderMutation) -> Result<FieldList, HalfFault>
        ensures trailers { IfOk result (λ fields. fields ≡ trailers_under self.now mutation.now) }
        ensures ok { OnOk result (cause_in self.now mutation.now of.Trailers ≡ None) }
        ensures err { IfErr result (λ fault. IsCause (cause_in self.now mutation.now of.Trailers) fault) }
    {
        match apply(
            self.alloc,
            &self.rules,
            PartKind::Trailers,
            &self.trailers,
            mutation,
        ) {
            Ok(fields) => Ok(fields),
            Err(fault) => Err(fault_by(fault)),
        }
    }
}
