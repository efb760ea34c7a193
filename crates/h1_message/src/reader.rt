//! A whole message of one side.

ghost use Rattle.std.specs.Prelude.{◌≡◌, ◌≤◌, ◌<◌, ◌^◌, Bool, true, false, not, [], length, is_some, IfOk, OnErr};
ghost use Rattle.http_model.specs.Bytes.{is_empty};
ghost use Rattle.http_model.specs.Heads.{head_so_far};
ghost use Rattle.http_model.specs.Reading.{Partial};
ghost use Rattle.http_model.specs.declared.types.Direction.TheVariants.{Request, Response};
ghost use Rattle.h1_message.specs.Source.{Source, IsNews, ended, more, original, told_to_head, untold};
ghost use Rattle.h1_message.specs.Stages.{StandsFor, held_at, news_of, reading_of};

use crate::news::News;
use crate::stage::{self, Stage};
use crate::step::{Given, nothing, step};
use http_model::Direction;
use std::alloc::{AllocError, Global};

/// Reads one side's whole message, in any pieces. It keeps the bytes of an unfinished head, of a chunk's line or of a
/// trailer section, and none of what it told.
#[derive(Drop)]
pub struct MessageReader {
    pub(crate) alloc: Global,
    pub(crate) stage: Stage,
    pub(crate) ended: bool,
}

impl MessageReader {
    /// A reader of a request of which nothing came. It takes no memory.
    pub fn request(alloc: Global) -> MessageReader
        ensures { StandsFor (untold Request) result }
    {
        MessageReader {
            alloc,
            stage: Stage::Unbegun(Direction::Request, false),
            ended: false,
        }
    }

    /// A reader of a response of which nothing came, to a request that wasn't HEAD. It takes no memory.
    pub fn response(alloc: Global) -> MessageReader
        ensures { StandsFor (untold Response) result }
    {
        MessageReader {
            alloc,
            stage: Stage::Unbegun(Direction::Response, false),
            ended: false,
        }
    }

    /// Tells, before the first byte, whether the request of a response was HEAD; behind it this changes nothing. It
    /// takes no memory.
    pub fn to_head(&mut self, yes: bool)
        ensures stands { (s : Source) → StandsFor s self.old → s.brought ≡ []
            → StandsFor (told_to_head yes s) self.new }
        ensures late { (s : Source) → StandsFor s self.old → is_empty s.brought ≡ false → self.new ≡ self.old }
    {
        match &mut self.stage {
            Stage::Unbegun(_, to_head) => *to_head = yes,
            _ => (),
        }
    }

    /// Takes the next bytes. Out of memory leaves the reader as it was.
    pub fn feed(&mut self, bytes: &[u8]) -> Result<News, AllocError>
        requires { length bytes.now < 2 ^ 32 }
        ensures stands { (s : Source) → StandsFor s self.old
            → IfOk result (λ news. StandsFor (more bytes.now s) self.new) }
        ensures news { (s : Source) → StandsFor s self.old
            → IfOk result (λ news. IsNews (original s) (original (more bytes.now s)) news) }
        ensures short { IfOk result (λ news. length news.body ≤ length bytes.now) }
        ensures unchanged { OnErr result (self.new ≡ self.old) }
    {
        let given = step(self.alloc, &mut self.stage, bytes)?;
        Ok(self.news(given))
    }

    /// No more bytes come: a body is whole that ends with the connection, and what isn't whole is cut short, but for a
    /// request without a byte. It takes no memory, and changes nothing where it was told before.
    pub fn end(&mut self) -> News
        ensures stands { (s : Source) → StandsFor s self.old → StandsFor (ended s) self.new }
        ensures news { (s : Source) → StandsFor s self.old → IsNews (original s) (original (ended s)) result }
        ensures bare { result.body ≡ [] }
        ensures again { self.old.ended ≡ true → self.new ≡ self.old }
    {
        self.ended = true;
        self.news(nothing(self.alloc))
    }

    // What was given, and how the message stands by now.
    fn news(&self, given: Given) -> News
        ensures { result ≡ news_of self.now.stage self.now.ended given }
    {
        let Given {
            head,
            body,
            trailers,
        } = given;
        News {
            head,
            body,
            whole: stage::is_whole(&self.stage, self.ended),
            trailers,
            fault: stage::fault(&self.stage, self.ended),
        }
    }

    /// How many bytes it keeps: fewer than a head or a trailer section may take.
    pub fn held(&self) -> u64
        ensures value { result ≡ held_at self.now.stage }
        ensures head { (s : Source) → StandsFor s self.now → reading_of s ≡ Partial
            → result ≡ length (head_so_far s.direction s.brought) }
        ensures bound { result < 32768 }
    {
        match &self.stage {
            Stage::Unbegun(_, _) => 0,
            Stage::Head(reader) => reader.held(),
            Stage::NoHead(_) => 0,
            Stage::Body(_, reader) => reader.held(),
            Stage::NoBody(_) => 0,
            Stage::Whole => 0,
        }
    }

    /// Whether the message is whole.
    pub fn is_whole(&self) -> bool
        ensures { (s : Source) → StandsFor s self.now → result ≡ (original s).whole }
    {
        stage::is_whole(&self.stage, self.ended)
    }

    /// Whether the head is whole.
    pub fn has_head(&self) -> bool
        ensures { (s : Source) → StandsFor s self.now → result ≡ is_some (original s).head }
    {
        stage::has_head(&self.stage)
    }

    /// Whether a byte came.
    pub fn is_begun(&self) -> bool
        ensures { (s : Source) → StandsFor s self.now → result ≡ not (is_empty s.brought) }
    {
        !matches!(self.stage, Stage::Unbegun(_, _))
    }

    /// Whether its end was told.
    pub fn has_ended(&self) -> bool
        ensures { (s : Source) → StandsFor s self.now → result ≡ s.ended }
    {
        self.ended
    }
}
