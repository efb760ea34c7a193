//! The messages between a proxy and an external processor, `envoy.service.ext_proc.v3`.
#![tactic(auto)]

mod answer;
mod answer_parts;
mod answer_writing;
mod ask;
mod ask_parts;
mod body;
mod common;
mod fault;
mod field;
mod flag;
mod header;
mod immediate;
mod laws;
mod lists;
mod message;
mod modes;
mod mutation;
mod overrides;
mod place;
mod reading;
mod records;
mod writing;

pub use answer::{
    Answer, BodyChange, Common, HeaderMutation, Immediate, Member, ModeNumbers, PartAnswer, Span,
};
pub use answer_writing::write_answer;
pub use ask::Ask;
pub use fault::MsgFault;
pub use laws::{
    read_answer_is_writable, read_ask_is_writable, written_answer_is_read, written_ask_is_read,
};
pub use lists::{Field, FieldList, NameList, SetField, SetList};
pub use modes::{BodyMode, PartModes};
pub use reading::{read_answer, read_ask};
pub use writing::write_ask;
