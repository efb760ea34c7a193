//! Rules, as they are read.

use ext_msgs::{Field, FieldList, NameList};
use pb_wire::Blob;

/// What the rules say. In a comment stands what the absence of a key means.
#[derive(Drop)]
pub struct RuleBook {
    /// `request`: nothing is changed.
    pub request: PartRules,
    /// `response`, likewise.
    pub response: PartRules,
    /// `quota`: none.
    pub quota: Option<Quota>,
}

/// The rules of one direction.
#[derive(Drop)]
pub struct PartRules {
    /// `set`, empty: fields of the head that are overwritten or added. At most 64.
    pub set: FieldList,
    /// `remove`, empty: names of fields that are taken out of the head. At most 64.
    pub remove: NameList,
    /// `body`, `keep`.
    pub body: BodyRule,
    /// `fixed`, empty: the text of a `fixed` body. At most 4,096 bytes.
    pub fixed: Blob,
    /// `trailers`, empty: fields of the trailers that are overwritten or added. At most 64.
    pub trailers: FieldList,
    /// `reply_when`, absent: a head with this field is answered by a reply.
    pub reply_when: Option<Field>,
    /// `reply_status`, 403: from 200 to 599.
    pub reply_status: u32,
    /// `reply_body`, empty: at most 4,096 bytes.
    pub reply_body: Blob,
}

/// What becomes of a body.
#[derive(Clone, Copy)]
pub enum BodyRule {
    Keep,
    /// ASCII letters in upper case.
    Upper,
    Clear,
    /// The fixed text.
    Fixed,
}

/// How much a processor answers.
#[derive(Clone, Copy)]
pub struct Quota {
    /// `streams`: so many request heads pass, and later ones are answered with 429.
    pub streams: u64,
    /// `life`: after so many asks the stage is broken; 0 is no end.
    pub life: u64,
}
