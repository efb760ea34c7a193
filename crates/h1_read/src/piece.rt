//! What a body reader gives.

use ext_msgs::FieldList;

/// What a call gives of a body.
#[derive(Drop)]
pub enum Piece {
    /// All bytes were used, and gave nothing.
    More,
    /// Body bytes: their start and length in the bytes of the call.
    Data(u32, u32),
    /// The body is whole, with these trailers.
    End(FieldList),
}
