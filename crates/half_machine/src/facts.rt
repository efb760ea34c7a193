//! What a half remembers beside bytes and fields.

ghost use Rattle.std.specs.Prelude.{◌≡◌};
ghost use Rattle.half_machine.specs.Facts.{mode_in, settled_in, collects_in};
ghost use Rattle.filter_model.specs.Course.{is_buffered, is_partial};
ghost use Rattle.http_model.specs.Heads.{is_bodiless};

use ext_msgs::{BodyMode, PartModes};
use http_model::{Framing, Length};

/// What was read of the message.
#[derive(Clone, Copy)]
pub struct Arrived {
    pub head: bool,
    pub framed: Length,
    /// The framing that the head states, for a response that can have no body.
    pub own: Framing,
    pub whole: bool,
    pub trailers: bool,
    /// How many body bytes, or 2^32 - 1 where there are more.
    pub bytes: u32,
}

/// What modes and answers say so far.
#[derive(Clone, Copy)]
pub struct Ruled {
    pub modes: PartModes,
    /// The rest passes.
    pub released: bool,
    /// A CONTINUE_AND_REPLACE came: nothing more is asked.
    pub stopped: bool,
    /// It came in the headers answer.
    pub passes: bool,
    /// It brought another body.
    pub replaced: bool,
    pub headers_answered: bool,
    pub body_answered: bool,
}

/// The asks that were made.
#[derive(Clone, Copy)]
pub struct Asked {
    pub any: bool,
    pub body: bool,
    pub last: bool,
    pub trailers: bool,
    pub unsent: u32,
    pub unhanded: u32,
}

/// Body bytes.
#[derive(Clone, Copy)]
pub struct Counts {
    /// In no ask, not given and not dropped.
    pub unasked: u32,
    /// Of answered pieces, not given.
    pub pieces: u32,
    /// Handed out, not given.
    pub waiting: u64,
}

/// What was handed out, behind a head whose framing was chosen.
#[derive(Clone, Copy)]
pub struct Gone {
    pub framing: Option<Framing>,
    pub head: bool,
    pub trailers: bool,
    pub ended: bool,
}

/// The body mode that holds.
pub fn mode_of(rule: &Ruled) -> BodyMode
    ensures { result ≡ mode_in rule.now }
{
    if rule.released || rule.passes {
        return BodyMode::NoAsk;
    }
    rule.modes.body
}

/// The headers are answered, or weren't to be asked.
pub fn is_settled(arrived: &Arrived, rule: &Ruled) -> bool
    ensures { result ≡ settled_in arrived.now rule.now }
{
    arrived.head && (rule.released || !rule.modes.headers || rule.headers_answered)
}

/// All of the body is collected for one ask.
pub fn is_buffered(mode: BodyMode) -> bool
    ensures { result ≡ is_buffered mode }
{
    match mode {
        BodyMode::Buffered => true,
        BodyMode::NoAsk | BodyMode::Streamed | BodyMode::Partial => false,
    }
}

/// The first bytes of the body are collected for one ask.
pub fn is_partial(mode: BodyMode) -> bool
    ensures { result ≡ is_partial mode }
{
    match mode {
        BodyMode::Partial => true,
        BodyMode::NoAsk | BodyMode::Streamed | BodyMode::Buffered => false,
    }
}

/// Body bytes are collected until they are asked.
pub fn is_collecting(arrived: &Arrived, rule: &Ruled, asked: &Asked) -> bool
    ensures { result ≡ collects_in arrived.now rule.now asked.now }
{
    let mode = mode_of(rule);
    is_settled(arrived, rule) && (is_buffered(mode) || (is_partial(mode) && !asked.body))
}

/// The head alone says that there is no body.
pub fn is_bodiless(length: Length) -> bool
    ensures { result ≡ is_bodiless length }
{
    match length {
        Length::NoBody => true,
        Length::Known(n) => n == 0,
        Length::Chunked | Length::Close => false,
    }
}
