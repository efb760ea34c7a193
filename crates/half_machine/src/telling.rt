//! What a half tells of itself.

ghost use Rattle.std.specs.Prelude.{◌≡◌, ◌+◌, true, is_some, length};
ghost use Rattle.std.specs.List.{list_any};
ghost use Rattle.http_model.specs.Reads.{Original};
ghost use Rattle.filter_model.specs.AllGiven.{is_all_handed};
ghost use Rattle.filter_model.specs.Course.{head_may_go, is_headers, out};
ghost use Rattle.filter_model.specs.Half.{Past, becomes, course, progress};
ghost use Rattle.half_machine.specs.Giving.{is_body_handed, is_handed_in, is_tail_in};
ghost use Rattle.half_machine.specs.Stands.{StandsFor};

use crate::facts::{is_bodiless, is_buffered, mode_of};
use crate::half::Half;
use ext_msgs::PartModes;
use http_model::{Framing, Length};

impl Half {
    /// How many of the asks that were made weren't handed out.
    pub fn unhanded(&self) -> u32
        ensures { (p : Past) → StandsFor p self.now → result + (progress p).handed ≡ length (course p).asks }
    {
        self.asked.unhanded
    }

    /// The modes that hold.
    pub fn modes(&self) -> PartModes
        ensures { (p : Past) → StandsFor p self.now → result ≡ (course p).modes }
    {
        self.rule.modes
    }

    /// Whether its head was chosen: it goes out, or went.
    pub fn is_committed(&self) -> bool
        ensures { (p : Past) → StandsFor p self.now → result ≡ is_some (course p).head }
    {
        self.gone.framing.is_some()
    }

    /// Whether a head could go at once that says this of its body.
    pub fn would_go(&self, length: Length) -> bool
        ensures { (p : Past) → StandsFor p self.now → (o : Original) → is_some o.head ≡ true → o.length ≡ length
            → result ≡ head_may_go (record (course p) { original = o }) }
    {
        let settled = !self.rule.modes.headers || self.rule.headers_answered;
        let body_settled = !is_buffered(mode_of(&self.rule))
            || is_bodiless(length)
            || self.rule.body_answered;
        self.rule.released || (settled && body_settled)
    }

    /// Whether the rest passes.
    pub fn is_released(&self) -> bool
        ensures { (p : Past) → StandsFor p self.now → result ≡ (course p).released }
    {
        self.rule.released
    }

    /// Whether all of the message was read.
    pub fn is_whole(&self) -> bool
        ensures { (p : Past) → StandsFor p self.now → result ≡ (course p).original.whole }
    {
        self.arrived.whole
    }

    /// Whether the ask of the headers is out.
    pub fn awaits_headers(&self) -> bool
        ensures { (p : Past) → StandsFor p self.now → result ≡ list_any is_headers (out (course p)) }
    {
        let awaits = self.marks.has_headers();
        awaits
    }

    /// Whether every byte was handed out that goes out of a message that has ended.
    pub fn is_all_handed(&self) -> bool
        ensures { (p : Past) → StandsFor p self.now → result ≡ is_all_handed (becomes p) (progress p).taken }
    {
        let Some(framing) = self.gone.framing else {
            return false;
        };
        let handed = self.is_handed(framing);
        handed
    }

    // Behind a head of this framing.
    fn is_handed(&self, framing: Framing) -> bool
        ensures { result ≡ is_handed_in self.now framing }
    {
        self.has_ended() && self.gone.head && self.is_body_handed() && self.is_tail_handed(framing)
    }

    // No byte of the body is left.
    fn is_body_handed(&self) -> bool
        ensures { result ≡ is_body_handed self.now }
    {
        self.hold.out_len() == 0 && (!self.passes() || self.hold.at_hand() == 0)
    }

    // The last chunk goes out with the trailers or with the end; in another framing neither has bytes.
    fn is_tail_handed(&self, framing: Framing) -> bool
        ensures { result ≡ is_tail_in self.now framing }
    {
        match framing {
            Framing::Chunked => self.gone.trailers || self.gone.ended,
            Framing::NoField | Framing::Length(_) => true,
        }
    }
}
