//! The first word of a line.

ghost use Rattle.std.specs.Prelude.{◌≡◌};
ghost use Rattle.trace_format.specs.Lines.{word_of};

/// The first word of a line of a trace.
#[derive(Clone, Copy)]
pub enum Word {
    Trace,
    Config,
    Open,
    Client,
    Up,
    ClientEnd,
    UpEnd,
    ClientLost,
    UpLost,
    UpNoDial,
    Answer,
    Close,
    Ext,
    ExtEnd,
    ExtLost,
    Tick,
    Hold,
    Free,
    Stop,
}

/// The word that this text is.
#[tactic(auto, unfolding(crate::specs::Lines::word_of))]
pub fn word_of(text: &[u8]) -> Option<Word>
    ensures { result ≡ word_of text.now }
{
    if text == b"trace".as_slice() {
        return Some(Word::Trace);
    }
    if text == b"config".as_slice() {
        return Some(Word::Config);
    }
    if text == b"open".as_slice() {
        return Some(Word::Open);
    }
    if text == b"client".as_slice() {
        return Some(Word::Client);
    }
    if text == b"up".as_slice() {
        return Some(Word::Up);
    }
    if text == b"client-end".as_slice() {
        return Some(Word::ClientEnd);
    }
    if text == b"up-end".as_slice() {
        return Some(Word::UpEnd);
    }
    if text == b"client-lost".as_slice() {
        return Some(Word::ClientLost);
    }
    if text == b"up-lost".as_slice() {
        return Some(Word::UpLost);
    }
    if text == b"up-nodial".as_slice() {
        return Some(Word::UpNoDial);
    }
    if text == b"answer".as_slice() {
        return Some(Word::Answer);
    }
    if text == b"close".as_slice() {
        return Some(Word::Close);
    }
    if text == b"ext".as_slice() {
        return Some(Word::Ext);
    }
    if text == b"ext-end".as_slice() {
        return Some(Word::ExtEnd);
    }
    if text == b"ext-lost".as_slice() {
        return Some(Word::ExtLost);
    }
    if text == b"tick".as_slice() {
        return Some(Word::Tick);
    }
    if text == b"hold".as_slice() {
        return Some(Word::Hold);
    }
    if text == b"free".as_slice() {
        return Some(Word::Free);
    }
    if text == b"stop".as_slice() {
        return Some(Word::Stop);
    }
    None
}
