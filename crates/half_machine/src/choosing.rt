//! How a half chooses its head's framing, once the head may go, and goes on.

ghost use Rattle.std.specs.Prelude.{◌≡◌};
ghost use Rattle.http_model.specs.declared.types.Direction.{Direction};
ghost use Rattle.filter_model.specs.Config.{CourseConfig};
ghost use Rattle.filter_model.specs.Course.{framing_by, is_bare, asked, committed};
ghost use Rattle.filter_model.specs.Half.{Progress};
ghost use Rattle.half_machine.specs.Asking.{Tied};
ghost use Rattle.half_machine.specs.Choosing.{may_go, kept_framing_in, framing_in, chosen_in, Holds};

use crate::due::is_no_ask;
use crate::facts::{is_bodiless, is_buffered, is_settled, mode_of};
use crate::half::Half;
use http_model::{Direction, Framing, Length};

// A response that can have no body.
pub(crate) fn is_bare(direction: Direction, length: Length) -> bool
    ensures { result ≡ is_bare direction length }
{
    match (direction, length) {
        (Direction::Response, Length::NoBody) => true,
        _ => false,
    }
}

// Of a body that nothing can change any more the length stays.
fn framing_by(length: Length, unchanged: bool) -> Framing
    ensures { result ≡ framing_by length unchanged }
{
    match length {
        Length::NoBody => Framing::NoField,
        Length::Known(n) if unchanged => Framing::Length(n),
        Length::Known(_) | Length::Chunked | Length::Close => Framing::Chunked,
    }
}

impl Half {
    fn may_go(&self) -> bool
        ensures { result ≡ may_go self.now }
    {
        self.rule.released
            || (is_settled(&self.arrived, &self.rule)
                && (!is_buffered(mode_of(&self.rule))
                    || is_bodiless(self.arrived.framed)
                    || self.rule.body_answered))
    }

    // Of a message whose body isn't replaced. A body that was asked whole, and has no trailers, has its length.
    fn kept_framing(&self) -> Framing
        ensures { result ≡ kept_framing_in self.now }
    {
        if is_buffered(self.rule.modes.body) && self.rule.body_answered && !self.arrived.trailers {
            return Framing::Length(u64::from(self.counts.pieces));
        }
        let unchanged = is_no_ask(mode_of(&self.rule)) || is_bodiless(self.arrived.framed);
        framing_by(self.arrived.framed, unchanged)
    }

    fn framing(&self) -> Framing
        ensures { result ≡ framing_in self.now }
    {
        if is_bare(self.direction, self.arrived.framed) {
            return self.arrived.own;
        }
        if self.rule.replaced {
            return Framing::Length(u64::from(self.hold.out_len()));
        }
        self.kept_framing()
    }

    // The framing is chosen at the first moment at which the head can go.
    fn choose_head(&mut self)
        ensures { self.new ≡ chosen_in self.old }
    {
        if self.gone.framing.is_none() && self.may_go() && self.arrived.head {
            self.gone.framing = Some(self.framing());
        }
    }

    /// What follows each call: the head is chosen where it can go, and asks that are due are made where they are
    /// permitted. Each leaves one more out or not sent, so four turns do.
    pub(crate) fn go_on(&mut self)
        requires { Tied self.old }
        ensures { (c : CourseConfig) (d : Direction) (p : Progress) → Holds c d p self.old →
            Holds c d (record p { course = asked c d (committed c d p.course) }) self.new }
    {
        self.choose_head();
        self.ask_one();
        self.ask_one();
        self.ask_one();
        self.ask_one();
    }
}
