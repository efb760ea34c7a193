//! The stages of a body reader, and what a step makes of bytes.

ghost use Rattle.std.specs.Prelude.{◌≡◌, []};
ghost use Rattle.http_model.specs.Bodies.{chunk_end};
ghost use Rattle.h1_read.specs.Stages.{end_chunk, EndSeen};

use crate::chunk_line::ChunkPlace;
use crate::piece::Piece;
use crate::place::Place;
use std::alloc::AllocError;

/// Where a reader stands in a body.
///
/// ```text
///             size            all data          CR LF
///   Line ----------> Chunk ------------> Chunk(0) ----> Line
///     |                                   |    ^
///     | size 0                         CR v    | (LF: Line)
///     v                                   Lf --+
///   Trailers ---> Over
/// ```
#[derive(Clone, Copy)]
pub(crate) enum Stage {
    /// So many bytes are left.
    Known(u64),
    /// In the line of a chunk; its bytes so far are kept, and end at this place.
    Line(ChunkPlace),
    /// So many bytes of a chunk's data are left, and then CR LF.
    Chunk(u64),
    /// Before the LF of a chunk's end.
    Lf,
    /// In the trailer section; its bytes so far are kept, and end at this place.
    Trailers(Place),
    /// The body ends with the connection.
    Close,
    /// The body is whole.
    Over,
    /// A chunk or the trailer section is bad.
    Bad,
    /// The trailer section is too long.
    Long,
}

/// What a step makes of bytes: the stage after it, what it gives, and how many it used.
#[derive(Drop)]
pub(crate) struct Fed {
    pub stage: Stage,
    pub piece: Piece,
    pub used: usize,
}

/// Why a step makes nothing of bytes.
#[derive(Clone, Copy)]
pub(crate) enum Stop {
    /// A chunk or the trailer section is outside the grammar.
    Bad,
    /// The trailer section is too long.
    Long,
    Memory,
}

impl From<AllocError> for Stop {
    ghost use Rattle.std.specs.Prelude.{◌≡◌};
    ghost use Rattle.h1_read.specs.declared.body_stage.Stop.TheVariants.{Memory};

    ghost from_gives = { λ _ e. e ≡ Memory };

    fn from(_: AllocError) -> Stop {
        Stop::Memory
    }
}

/// What stands behind the data of a chunk.
#[derive(Clone, Copy)]
pub(crate) enum ChunkEnd {
    Whole,
    Cr,
    Absent,
    Wrong,
}

/// The end of a chunk: CR LF.
pub(crate) fn end_of_chunk(bytes: &[u8]) -> ChunkEnd
    ensures exact { chunk_end [] bytes.now ≡ end_chunk bytes.now result }
    ensures seen { EndSeen bytes.now result }
{
    if bytes.is_empty() {
        return ChunkEnd::Absent;
    }
    if bytes[0] != b'\r' {
        return ChunkEnd::Wrong;
    }
    if bytes.len() == 1 {
        return ChunkEnd::Cr;
    }
    if bytes[1] != b'\n' {
        return ChunkEnd::Wrong;
    }
    ChunkEnd::Whole
}
