//! How a half hands out what its message has become.

ghost use Rattle.std.specs.Prelude.{◌≡◌, ◌≤◌, ◌<◌, List, ℕ, [], take, length, IfOk, IfErr, unwrap_or};
ghost use Rattle.http_model.specs.declared.types.Out.TheVariants as part;
ghost use Rattle.filter_model.specs.Half.{Past, Gave, MayGive, after_step, becomes, progress};
ghost use Rattle.half_machine.specs.Giving.{out_size, hand_size, out_given, hand_given, head_given, body_done_in, trailers_done_in, behind_of, part_behind, given_behind, has_ended};
ghost use Rattle.half_machine.specs.Stands.{StandsFor};

use crate::due::{body_due, trailers_due};
use crate::half::Half;
use http_model::{Framing, Out};
use pb_wire::{Blob, Duplicate};
use std::alloc::AllocError;

/// What goes behind all of the body.
#[derive(Clone, Copy)]
pub enum Behind {
    /// Nothing by now.
    Nothing,
    Trailers,
    End,
}

impl Half {
    /// The next part of what the message has become: its head, a piece of its body, which is an answered piece or from
    /// 1 to `max` bytes that pass, its trailers, or its end.
    pub fn next_out(&mut self, max: u32) -> Result<Out, AllocError>
        requires { 1 ≤ max }
        ensures gives { (p : Past) → StandsFor p self.old →
            IfOk result (λ out. MayGive max (becomes p) (progress p).taken out) }
        ensures stands { (p : Past) → StandsFor p self.old →
            IfOk result (λ out. StandsFor (after_step (Gave out) p) self.new) }
        ensures still { IfOk result (λ out. out ≡ part.Nothing → self.new ≡ self.old) }
        ensures kept { IfErr result (λ e. self.new ≡ self.old) }
    {
        let Some(framing) = self.gone.framing else {
            return Ok(Out::Nothing);
        };
        if !self.gone.head {
            let out = self.give_head(framing)?;
            return Ok(out);
        }
        let n = self.out_size(max);
        if n > 0 {
            let bytes = self.give_out(n)?;
            return Ok(Out::Data(bytes));
        }
        let n = self.hand_size(max);
        if n > 0 {
            let bytes = self.give_hand(n)?;
            return Ok(Out::Data(bytes));
        }
        let out = self.give_behind()?;
        Ok(out)
    }

    fn give_head(&mut self, framing: Framing) -> Result<Out, AllocError>
        ensures gives { IfOk result (λ out. out ≡ part.Head (unwrap_or self.old.head []) framing) }
        ensures left { IfOk result (λ out. self.new ≡ head_given self.old) }
        ensures kept { IfErr result (λ e. self.new ≡ self.old) }
    {
        let fields = self.head_or_none()?;
        self.gone.head = true;
        Ok(Out::Head(fields, framing))
    }

    // How many of the bytes that go out are handed out next.
    fn out_size(&self, max: u32) -> u32
        ensures { result ≡ out_size max self.now }
    {
        let most = self.pieces.first().unwrap_or(max);
        most.min(self.hold.out_len())
    }

    // How many of the bytes at hand are handed out next, where none goes out.
    fn hand_size(&self, max: u32) -> u32
        ensures { result ≡ hand_size max self.now }
    {
        if !self.passes() {
            return 0;
        }
        max.min(self.hold.at_hand())
    }

    fn give_out(&mut self, n: u32) -> Result<Blob, AllocError>
        requires { n ≤ length self.old.hold.out }
        ensures gives { IfOk result (λ bytes. bytes ≡ take n self.old.hold.out) }
        ensures left { IfOk result (λ bytes. self.new ≡ out_given n self.old) }
        ensures kept { IfErr result (λ e. self.new ≡ self.old) }
    {
        let (front, _) = self.hold.out_front().split_at(n as usize);
        let bytes = Blob::of(self.alloc, front)?;
        self.hold.out_drop(n);
        self.pieces.drop_first();
        self.counts.waiting = self.counts.waiting.saturating_add(u64::from(n));
        Ok(bytes)
    }

    fn give_hand(&mut self, n: u32) -> Result<Blob, AllocError>
        requires { n ≤ length self.old.hold.hand }
        ensures gives { IfOk result (λ bytes. bytes ≡ take n self.old.hold.hand) }
        ensures left { IfOk result (λ bytes. self.new ≡ hand_given n self.old) }
        ensures kept { IfErr result (λ e. self.new ≡ self.old) }
    {
        let (front, _) = self.hold.hand_front().split_at(n as usize);
        let bytes = Blob::of(self.alloc, front)?;
        self.hold.hand_drop(n);
        self.counts.waiting = self.counts.waiting.saturating_add(u64::from(n));
        Ok(bytes)
    }

    // All of the body was read, and no piece of it is asked or still to be asked.
    fn is_body_done(&self) -> bool
        ensures { result ≡ body_done_in self.now }
    {
        let at_hand = self.hold.at_hand();
        self.arrived.whole
            && (self.rule.released
                || (!self.marks.has_body()
                    && (self.rule.stopped
                        || body_due(
                            &self.arrived,
                            &self.rule,
                            &self.asked,
                            self.limit,
                            at_hand,
                        ).is_none())))
    }

    // The ask of the trailers was answered, or none is due.
    fn are_trailers_done(&self) -> bool
        ensures { result ≡ trailers_done_in self.now }
    {
        self.rule.released
            || (self.asked.trailers && !self.marks.has_trailers())
            || (self.marks.len() == 0
                && (self.rule.stopped
                    || trailers_due(&self.arrived, &self.rule, &self.asked).is_none()))
    }

    fn behind(&self) -> Behind
        ensures { result ≡ behind_of self.now }
    {
        if !self.rule.replaced {
            if !self.is_body_done() {
                return Behind::Nothing;
            }
            if self.arrived.trailers {
                if !self.are_trailers_done() {
                    return Behind::Nothing;
                }
                if !self.gone.trailers {
                    return Behind::Trailers;
                }
            }
        }
        if self.gone.ended {
            return Behind::Nothing;
        }
        Behind::End
    }

    // What the message becomes has ended.
    pub(crate) fn has_ended(&self) -> bool
        ensures { result ≡ has_ended self.now }
    {
        self.rule.replaced
            || (self.is_body_done() && (!self.arrived.trailers || self.are_trailers_done()))
    }

    fn give_behind(&mut self) -> Result<Out, AllocError>
        ensures gives { IfOk result (λ out. out ≡ part_behind self.old.trailers (behind_of self.old)) }
        ensures left { IfOk result (λ out. self.new ≡ given_behind (behind_of self.old) self.old) }
        ensures kept { IfErr result (λ e. self.new ≡ self.old) }
    {
        match self.behind() {
            Behind::Nothing => Ok(Out::Nothing),
            Behind::Trailers => {
                let fields = self.trailers.copy()?;
                self.gone.trailers = true;
                Ok(Out::Trailers(fields))
            }
            Behind::End => {
                self.gone.ended = true;
                Ok(Out::End)
            }
        }
    }
}
