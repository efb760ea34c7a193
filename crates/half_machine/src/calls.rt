//! What a half is told.

ghost use Rattle.std.specs.Prelude.{◌≡◌};
ghost use Rattle.filter_model.specs.Half.{Past, after_step, Told, Settle, Release, Head as HeadCame, Sent as OneSent, Given as SoManyGiven, Bytes as BytesCame, End as EndCame};
ghost use Rattle.half_machine.specs.Stands.{StandsFor, Stands};
ghost use Rattle.half_machine.specs.Calls.{MayHead, MaySettle, settled_in, MaySent, MayGiven, MayBytes, CanTake, with_bytes, CanRelease, released_in};

use crate::facts::is_bodiless;
use crate::half::Half;
use crate::own::own_framing;
use ext_msgs::{FieldList, PartModes};
use http_model::Length;

// Behind a head the header mode stays.
fn settled(behind_head: bool, old: PartModes, new: PartModes) -> PartModes
    ensures { result ≡ settled_in behind_head old new }
{
    if !behind_head {
        return new;
    }
    PartModes {
        headers: old.headers,
        body: new.body,
        trailers: new.trailers,
    }
}

impl Half {
    /// Other modes: before the head, or, without effect on that of the headers, while their ask is out.
    pub fn settle(&mut self, modes: PartModes)
        requires { Stands self.old MaySettle }
        ensures { (p : Past) → StandsFor p self.old → MaySettle p
            → StandsFor (after_step (Told (Settle modes)) p) self.new }
    {
        self.rule.modes = settled(self.arrived.head, self.rule.modes, modes);
        self.go_on();
    }

    /// Its head, and how that says that its body ends. It comes once.
    pub fn head(&mut self, head: FieldList, length: Length)
        requires { Stands self.old MayHead }
        ensures { (p : Past) → StandsFor p self.old → MayHead p
            → StandsFor (after_step (Told (HeadCame head length)) p) self.new }
    {
        self.arrived.head = true;
        self.arrived.framed = length;
        self.arrived.own = own_framing(&head);
        self.arrived.whole = is_bodiless(length);
        self.head = Some(head);
        self.go_on();
    }

    /// That the oldest ask not yet sent was sent.
    pub fn sent(&mut self)
        requires { Stands self.old MaySent }
        ensures { (p : Past) → StandsFor p self.old → MaySent p → StandsFor (after_step (Told OneSent) p) self.new }
    {
        self.asked.unsent -= 1;
        self.go_on();
    }

    /// That n more body bytes were given to the other side.
    pub fn given(&mut self, n: u32)
        requires { Stands self.old (λ p. MayGiven p n) }
        ensures { (p : Past) → StandsFor p self.old → MayGiven p n
            → StandsFor (after_step (Told (SoManyGiven n)) p) self.new }
    {
        let passed = n.saturating_sub(self.counts.pieces);
        self.counts.unasked = self.counts.unasked.saturating_sub(passed);
        self.counts.pieces = self.counts.pieces.saturating_sub(n);
        self.counts.waiting -= u64::from(n);
        self.go_on();
    }

    /// Bytes of its body: at most `room`, behind a head that doesn't say that there is no body, and before the end.
    pub fn data(&mut self, bytes: &[u8])
        requires { Stands self.old (λ p. MayBytes p bytes.now) }
        ensures { (p : Past) → StandsFor p self.old → MayBytes p bytes.now →
            StandsFor (after_step (Told (BytesCame bytes.now)) p) self.new }
    {
        self.take(bytes);
        self.go_on();
    }

    /// The last bytes of its body, none or at most `room`, and its trailers.
    pub fn end(&mut self, bytes: &[u8], trailers: FieldList)
        requires { Stands self.old (λ p. MayBytes p bytes.now) }
        ensures { (p : Past) → StandsFor p self.old → MayBytes p bytes.now →
            StandsFor (after_step (Told (EndCame bytes.now trailers)) p) self.new }
    {
        self.take(bytes);
        self.arrived.whole = true;
        self.arrived.trailers = !trailers.is_empty();
        self.trailers = trailers;
        self.go_on();
    }

    /// That the rest passes: nothing more is asked, and what wasn't answered goes on as it was.
    pub fn release(&mut self)
        requires { Stands self.old (λ p. Unit {0}) }
        ensures { (p : Past) → StandsFor p self.old → StandsFor (after_step (Told Release) p) self.new }
    {
        self.let_pass();
        self.go_on();
    }

    // What is lent goes out too, unless another body took the place of all.
    fn let_pass(&mut self)
        requires { CanRelease self.old }
        ensures { self.new ≡ released_in self.old }
    {
        if !self.rule.released && !self.rule.replaced {
            self.counts.unasked += self.hold.lent();
            self.hold.pass_lent();
        }
        self.rule.released = true;
    }

    // Bytes that come where another body took the place of theirs are dropped.
    fn take(&mut self, bytes: &[u8])
        requires { CanTake self.old bytes.now }
        ensures { self.new ≡ with_bytes bytes.now self.old }
    {
        let n = bytes.len() as u32;
        self.arrived.bytes = self.arrived.bytes.saturating_add(n);
        if !self.rule.replaced {
            self.hold.put(bytes);
            self.counts.unasked += n;
        }
    }
}
