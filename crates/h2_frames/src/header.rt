//! The nine bytes before a payload: RFC 9113 section 4.1.

ghost use Rattle.std.specs.Prelude.{◌≡◌, ◌+◌, ◌<◌, ◌^◌};
ghost use Rattle.h2_frames.specs.Headers.{kind_of, header_of, has_flag, is_last, is_ack, ends_block, is_padded, has_priority, pad_byte, priority_bytes, has_wrong_size as wrong_size, is_misplaced as misplaced, header_fault};

use crate::codes::{FRAME_SIZE_ERROR, PROTOCOL_ERROR};
use crate::flags::{ACK, END_HEADERS, END_STREAM, PADDED, PRIORITY};
use crate::protocol::{HEAD_LEN, LONGEST_PAYLOAD};
use crate::{data_frame, goaway, headers_frame, ping, rst_stream, settings, types, window_update};

/// The type of a frame.
#[derive(Clone, Copy)]
pub(crate) enum Kind {
    Data,
    Headers,
    Priority,
    Reset,
    Settings,
    Push,
    Ping,
    GoAway,
    Window,
    Continuation,
    Unknown(u8),
}

/// What the nine bytes say.
#[derive(Clone, Copy)]
pub(crate) struct Header {
    /// The payload's length.
    pub(crate) size: u32,
    pub(crate) kind: Kind,
    pub(crate) flags: u8,
    pub(crate) stream: u32,
}

fn kind_of_code(code: u8) -> Kind
    ensures { result ≡ kind_of code }
{
    match code {
        types::DATA => Kind::Data,
        types::HEADERS => Kind::Headers,
        types::PRIORITY => Kind::Priority,
        types::RST_STREAM => Kind::Reset,
        types::SETTINGS => Kind::Settings,
        types::PUSH_PROMISE => Kind::Push,
        types::PING => Kind::Ping,
        types::GOAWAY => Kind::GoAway,
        types::WINDOW_UPDATE => Kind::Window,
        types::CONTINUATION => Kind::Continuation,
        other => Kind::Unknown(other),
    }
}

impl Header {
    /// The header that these bytes are.
    #[tactic(auto, unfolding(crate::specs::Headers::header_of))]
    pub(crate) fn of(nine: [u8; 9]) -> Header
        ensures { result ≡ header_of nine }
    {
        let stream = u32::from_be_bytes([nine[5], nine[6], nine[7], nine[8]]);
        Header {
            size: u32::from_be_bytes([0, nine[0], nine[1], nine[2]]),
            kind: kind_of_code(nine[3]),
            flags: nine[4],
            stream: stream % (1 << 31),
        }
    }

    /// The length of the frame.
    pub(crate) fn frame_len(self) -> usize
        ensures { result ≡ 9 + self.size }
    {
        HEAD_LEN + self.size as usize
    }

    fn has_flag(self, flag: u8) -> bool
        ensures { result ≡ has_flag flag self }
    {
        self.flags & flag != 0
    }

    pub(crate) fn is_last(self) -> bool
        ensures { result ≡ is_last self }
    {
        self.has_flag(END_STREAM)
    }

    pub(crate) fn is_ack(self) -> bool
        ensures { result ≡ is_ack self }
    {
        self.has_flag(ACK)
    }

    pub(crate) fn ends_block(self) -> bool
        ensures { result ≡ ends_block self }
    {
        self.has_flag(END_HEADERS)
    }

    pub(crate) fn is_padded(self) -> bool
        ensures { result ≡ is_padded self }
    {
        self.has_flag(PADDED)
    }

    /// How many bytes the length of the padding takes.
    pub(crate) fn pad_byte(self) -> u32
        ensures { result ≡ pad_byte self }
    {
        if self.is_padded() { 1 } else { 0 }
    }

    /// How many bytes the priority takes in HEADERS.
    pub(crate) fn priority_bytes(self) -> u32
        ensures { result ≡ priority_bytes self }
    {
        if self.has_flag(PRIORITY) { 5 } else { 0 }
    }

    fn has_wrong_size(self) -> bool
        ensures { result ≡ wrong_size self.kind self }
    {
        match self.kind {
            Kind::Data => data_frame::has_wrong_size(self),
            Kind::Headers => headers_frame::has_wrong_size(self),
            Kind::Reset => rst_stream::has_wrong_size(self),
            Kind::Settings => settings::has_wrong_size(self),
            Kind::Ping => ping::has_wrong_size(self),
            Kind::GoAway => goaway::has_wrong_size(self),
            Kind::Window => window_update::has_wrong_size(self),
            Kind::Priority | Kind::Push | Kind::Continuation | Kind::Unknown(_) => false,
        }
    }

    // Whether a frame of a stream is on the connection, or one of the connection on a stream.
    fn is_misplaced(self) -> bool
        ensures { result ≡ misplaced self.kind self }
    {
        match self.kind {
            Kind::Settings | Kind::Ping | Kind::GoAway => self.stream != 0,
            Kind::Window | Kind::Unknown(_) => false,
            Kind::Data
            | Kind::Headers
            | Kind::Priority
            | Kind::Reset
            | Kind::Push
            | Kind::Continuation => self.stream == 0,
        }
    }

    /// The code of the first fault that the nine bytes tell.
    #[tactic(auto, unfolding(crate::specs::Headers::header_fault))]
    pub(crate) fn fault(self) -> Option<u32>
        ensures { result ≡ header_fault self }
    {
        if self.size > LONGEST_PAYLOAD {
            return Some(FRAME_SIZE_ERROR);
        }
        if self.has_wrong_size() {
            return Some(FRAME_SIZE_ERROR);
        }
        if self.is_misplaced() {
            return Some(PROTOCOL_ERROR);
        }
        None
    }
}
