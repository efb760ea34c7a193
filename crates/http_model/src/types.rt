//! Which way a message goes, how its body is delimited, and the parts in which it goes out.

use ext_msgs::FieldList;
use pb_wire::Blob;

/// The way of a message: from the client to the upstream, or back.
#[derive(Clone, Copy, Debug, PartialEq, Eq)]
pub enum Direction {
    Request,
    Response,
}

/// How a message that is read tells the end of its body: RFC 9112 section 6.3.
#[derive(Clone, Copy, Debug, PartialEq, Eq)]
pub enum Length {
    /// A request without a framing field, or a response that can have no body.
    NoBody,
    /// `content-length`, in bytes; at most 2^63 - 1.
    Known(u64),
    /// `transfer-encoding: chunked`.
    Chunked,
    /// A response whose body ends with the connection.
    Close,
}

/// The framing field of a head that is written.
#[derive(Clone, Copy, Debug, PartialEq, Eq)]
pub enum Framing {
    /// None.
    NoField,
    /// `content-length`, in bytes.
    Length(u64),
    /// `transfer-encoding: chunked`.
    Chunked,
}

/// A part of a message that goes out.
#[derive(Debug, Drop)]
pub enum Out {
    /// The head, with the framing of what follows.
    Head(FieldList, Framing),
    /// Body bytes; one chunk where the framing is chunked.
    Data(Blob),
    /// The trailers.
    Trailers(FieldList),
    /// The end of the message.
    End,
    /// Nothing may go out yet.
    Nothing,
}
