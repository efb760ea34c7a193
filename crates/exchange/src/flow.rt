//! One direction of an exchange: what its side brings, what is asked of it, and what goes out.

ghost use Rattle.std.specs.Prelude.{◌≡◌, ◌≤◌, ◌||◌, ◌&&◌, [], IfOk, IfErr, OnErr, OnOk};
ghost use Rattle.std.specs.Prelude.{None, true, false, is_some, take};
ghost use Rattle.filter_model.specs.Account.{is_given_at};
ghost use Rattle.std.specs.List.{list_any};
ghost use Rattle.filter_model.specs.Course.{head_may_go, is_headers, out};
ghost use Rattle.filter_model.specs.Half.{Past, becomes, course, kind_numbered, refusal};
ghost use Rattle.half_machine.specs.Answering.{MayAnswer};
ghost use Rattle.half_machine.specs.Calls.{MaySettle};
ghost use Rattle.half_machine.specs.Judging.{IsCause};
ghost use Rattle.http_model.specs.Reads.{Original};
ghost use Rattle.h1_message.specs.Source.{IsNews, original};
ghost use Rattle.h1_outlet.specs.Outlets.{all};
ghost use Rattle.exchange.specs.Flows.{Story, FlowStands, HasStory, IsFresh, IsUnfinished, IsReadable};
ghost use Rattle.exchange.specs.Flows.{SameStory, Took, SameMarks, answer_calls, room_of};
ghost use Rattle.exchange.specs.Reading.{FitsBehindHead, HasHeard, HasLearnt, HeadFits, MayLearn, RestFits};
ghost use Rattle.exchange.specs.Reading.{calls_behind, head_calls, rest_calls, with_calls};
ghost use Rattle.exchange.specs.Answering.{settled_with};
ghost use Rattle.exchange.specs.Giving.{Filled};

use ext_msgs::{FieldList, PartAnswer, PartModes};
use h1_message::{MessageReader, News};
use h1_outlet::Outlet;
use h1_read::Message;
use half_machine::Half;
use header_mutation::{HalfFault, HalfSetup};
use http_model::Out;
use pb_wire::Blob;
use std::alloc::{AllocError, Global};

/// The greatest piece of passing bytes that is handed out at once, and of what is read at once.
pub(crate) const PIECE: u32 = 16_384;

/// The most bytes of a head: RFC 9112 section 3 leaves it open.
pub(crate) const HEAD_LIMIT: u32 = 32_768;

/// One direction of an exchange.
#[derive(Drop)]
pub(crate) struct Flow {
    pub reader: MessageReader,
    pub half: Half,
    pub outlet: Outlet,
    /// When its timer fires, where an ask is out; none beyond 64 bits, where it never does.
    pub deadline: Option<u64>,
    /// The oldest ask out had its timeout override.
    pub extended: bool,
    /// The link of its side is lost.
    pub lost: bool,
}

impl Flow {
    /// A flow of which nothing was told.
    pub fn new(
        alloc: Global,
        reader: MessageReader,
        outlet: Outlet,
        setup: HalfSetup,
    ) -> Result<Flow, AllocError>
        requires least { 1 ≤ setup.buffer_limit }
        requires limit { setup.buffer_limit ≤ 1_048_576 }
        requires least_answer { 1_024 ≤ setup.answer_limit }
        requires answer { setup.answer_limit ≤ 2_097_152 }
        ensures { IfOk result (λ x. IsFresh reader outlet setup x) }
    {
        let half = Half::new(alloc, setup)?;
        Ok(Flow {
            reader,
            half,
            outlet,
            deadline: None,
            extended: false,
            lost: false,
        })
    }

    /// Whether all of the message was given to the other side.
    pub fn is_given(&self) -> bool
        ensures { (s : Story) → FlowStands s self.now → s.flowed.reply ≡ [] → result
            ≡ is_given_at s.past.direction (becomes s.past).head (becomes s.past) s.flowed.front
            (take s.flowed.given (all s.flowed)) }
    {
        self.outlet.is_empty() && self.half.is_all_handed()
    }

    /// Whether its side brings nothing any more, while the exchange lives.
    pub fn is_over(&self) -> bool
        ensures { (s : Story) → FlowStands s self.now
            → result ≡ ((original s.source).whole || s.source.ended || self.now.lost) }
    {
        self.reader.is_whole() || self.reader.has_ended() || self.lost
    }

    /// How many bytes its side may bring, while the exchange lives.
    pub fn room(&self) -> u32
        ensures { (s : Story) → FlowStands s self.now → IsReadable s → result ≡ room_of s }
    {
        if self.reader.is_whole() {
            return 0;
        }
        if self.reader.has_head() {
            return self.half.room();
        }
        PIECE.min(HEAD_LIMIT - self.reader.held() as u32)
    }

    /// Whether a head could go at once that came with this news.
    pub fn would_go(&self, news: &News) -> bool
        ensures { (s : Story) → FlowStands s self.now → (before now : Original) → IsNews before now news.now
            → result ≡ (is_some news.now.head && head_may_go (record (course s.past) { original = now })) }
    {
        match &news.head {
            Some(message) => self.half.would_go(message.length),
            None => false,
        }
    }

    /// An answer, and the modes that it brings, which hold before it counts. One that is refused, or for which memory
    /// runs out, changes nothing.
    pub fn answer(&mut self, answer: &PartAnswer, modes: Option<PartModes>) -> Result<(), HalfFault>
        requires { HasStory self.old (λ s. MayAnswer s.past answer.now.common) }
        ensures taken { (s : Story) → FlowStands s self.old → OnOk result (refusal s.past.config s.past.direction
            (course s.past) (kind_numbered answer.now.part) answer.now.common ≡ None) }
        ensures refused { (s : Story) → FlowStands s self.old → (course s.past).released ≡ false
            → IfErr result (λ fault. IsCause (refusal s.past.config s.past.direction
            (course s.past) (kind_numbered answer.now.part) answer.now.common) fault) }
        ensures stands { (s : Story) → FlowStands s self.old → (course s.past).released ≡ false
            → MayAnswer s.past answer.now.common → OnOk result ((s' : Story) × FlowStands s' self.new × HasHeard
            (answer_calls (list_any is_headers (out (course s.past))) modes answer.now.common) s s') }
        ensures unchanged { (s : Story) → FlowStands s self.old → (course s.past).released ≡ false
            → OnErr result ((s' : Story) × FlowStands s' self.new × SameStory s s') }
        ensures marks { SameMarks self.old self.new }
    {
        let old = self.half.modes();
        let awaits = self.half.awaits_headers();
        self.settle(awaits, modes);
        if let Err(fault) = self.half.answer(answer) {
            self.settle(awaits, Some(old));
            return Err(fault);
        }
        Ok(())
    }

    /// Modes, where they count: before a head, or while its ask is out.
    pub fn settle(&mut self, counts: bool, modes: Option<PartModes>)
        requires { HasStory self.old (λ s. counts ≡ true → MaySettle s.past) }
        ensures stands { (s : Story) → FlowStands s self.old → (counts ≡ true → MaySettle s.past)
            → FlowStands (settled_with counts modes s) self.new }
        ensures marks { SameMarks self.old self.new }
    {
        if !counts {
            return;
        }
        if let Some(modes) = modes {
            self.half.settle(modes);
        }
    }

    /// The next bytes for the other side, from 1 to `max`, or none where no byte may go by now. Out of memory nothing
    /// is given.
    pub fn take(&mut self, max: u32) -> Result<Option<Blob>, AllocError>
        requires max { 1 ≤ max }
        requires stands { HasStory self.old IsUnfinished }
        ensures marks { SameMarks self.old self.new }
        ensures took { (s : Story) → FlowStands s self.old → IsUnfinished s
            → IfOk result (λ piece. Took max s piece self.new) }
        ensures kept { (s : Story) → FlowStands s self.old → IsUnfinished s
            → OnErr result ((s' : Story) × FlowStands s' self.new × SameStory s s') }
    {
        let waits = self.fill()?;
        if !waits {
            return Ok(None);
        }
        let Some(gave) = self.outlet.take(max)? else {
            return Ok(None);
        };
        self.half.given(gave.body);
        Ok(Some(gave.bytes))
    }

    // A part is handed out where no byte waits. The answer is whether bytes wait now.
    fn fill(&mut self) -> Result<bool, AllocError>
        requires { HasStory self.old IsUnfinished }
        ensures marks { SameMarks self.old self.new }
        ensures filled { (s : Story) → FlowStands s self.old → IsUnfinished s
            → IfOk result (λ waits. Filled s waits self.new) }
        ensures unchanged { OnErr result (self.new ≡ self.old) }
    {
        if !self.outlet.is_empty() {
            return Ok(true);
        }
        match self.half.next_out(PIECE)? {
            Out::Nothing => Ok(false),
            out => {
                self.outlet.put(out);
                Ok(true)
            }
        }
    }

    /// What the reader has told of an entry, and the half wasn't told yet. Once its body is past its limit the half is
    /// told no more.
    pub fn tell(&mut self, news: News)
        requires { HasStory self.old (λ s. MayLearn s news) }
        ensures stands { (s : Story) → FlowStands s self.old → MayLearn s news
            → (s' : Story) × FlowStands s' self.new × HasLearnt s (original s.source) s' }
        ensures marks { SameMarks self.old self.new }
    {
        let News {
            head,
            body,
            whole,
            trailers,
            fault: _,
        } = news;
        self.tell_head(head);
        self.tell_body(body.bytes(), whole, trailers);
    }

    fn tell_head(&mut self, head: Option<Message>)
        requires { HasStory self.old (λ s. HeadFits head s) }
        ensures stands { (s : Story) → FlowStands s self.old → HeadFits head s
            → FlowStands (with_calls (head_calls head) s) self.new }
        ensures marks { SameMarks self.old self.new }
    {
        if let Some(message) = head {
            self.half.head(message.head, message.length);
        }
    }

    // With the head more bytes can come than there is room for: the first of them may be asked at once.
    fn tell_body(&mut self, bytes: &[u8], whole: bool, trailers: FieldList)
        requires { HasStory self.old (λ s. FitsBehindHead s whole trailers bytes.now) }
        ensures stands { (s : Story) → FlowStands s self.old → FitsBehindHead s whole trailers bytes.now
            → (s' : Story) × FlowStands s' self.new × HasHeard (calls_behind s whole trailers bytes.now) s s' }
        ensures marks { SameMarks self.old self.new }
    {
        if self.half.is_whole() {
            return;
        }
        let (first, rest) = bytes.split_at(bytes.len().min(self.half.room() as usize));
        if rest.is_empty() {
            self.tell_rest(first, whole, trailers);
            return;
        }
        self.half.data(first);
        if self.half.over_limit() {
            return;
        }
        self.tell_rest(rest, whole, trailers);
    }

    fn tell_rest(&mut self, bytes: &[u8], whole: bool, trailers: FieldList)
        requires { HasStory self.old (λ s. RestFits s whole trailers bytes.now) }
        ensures stands { (s : Story) → FlowStands s self.old → RestFits s whole trailers bytes.now
            → FlowStands (with_calls (rest_calls whole trailers bytes.now) s) self.new }
        ensures marks { SameMarks self.old self.new }
    {
        if whole {
            self.half.end(bytes, trailers);
        } else if !bytes.is_empty() {
            self.half.data(bytes);
        }
    }
}
