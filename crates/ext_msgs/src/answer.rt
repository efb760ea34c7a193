//! `ProcessingResponse` of `envoy.service.ext_proc.v3`.

use crate::{NameList, SetList};
use pb_wire::Blob;

/// What a processor answers.
#[derive(Drop)]
pub struct Answer {
    pub member: Member,
    /// `mode_override`.
    pub modes: Option<ModeNumbers>,
    /// `override_message_timeout`.
    pub timeout: Option<Span>,
}

/// Which part an answer is about, and what it says.
#[derive(Drop)]
pub enum Member {
    Unset,
    RequestHeaders(Common),
    ResponseHeaders(Common),
    RequestBody(Common),
    ResponseBody(Common),
    RequestTrailers(HeaderMutation),
    ResponseTrailers(HeaderMutation),
    Immediate(Immediate),
}

/// `CommonResponse`, also an absent one: no replacement, no mutation.
#[derive(Drop)]
pub struct Common {
    /// The status is `CONTINUE_AND_REPLACE`.
    pub replace: bool,
    pub headers: HeaderMutation,
    pub body: BodyChange,
}

/// `BodyMutation`, also an absent one.
#[derive(Drop)]
pub enum BodyChange {
    Absent,
    Bytes(Blob),
    Clear(bool),
    Streamed(Blob, bool),
}

/// `HeaderMutation`, also an absent one. Removals go before settings.
#[derive(Drop)]
pub struct HeaderMutation {
    pub set: SetList,
    pub remove: NameList,
}

/// `ImmediateResponse`: a reply in place of the exchange.
#[derive(Drop)]
pub struct Immediate {
    pub code: u32,
    pub headers: HeaderMutation,
    pub body: Blob,
}

/// The numbers of `ProcessingMode`, in the order of its fields.
#[derive(Clone, Copy)]
pub struct ModeNumbers {
    pub numbers: [i32; 6],
}

/// `google.protobuf.Duration`.
#[derive(Clone, Copy)]
pub struct Span {
    pub seconds: i64,
    pub nanos: i32,
}

/// An answer about one part: 0 headers, 1 body, 2 trailers. A mutation of trailers stands in `common.headers`.
#[derive(Drop)]
pub struct PartAnswer {
    pub part: u8,
    pub common: Common,
}
