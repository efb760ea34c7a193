//! HTTP/1.1 messages as they are read: RFC 9112 sections 2 to 7.
#![tactic(auto)]

mod body;
mod body_stage;
mod body_steps;
mod chunk_line;
mod fault;
mod fields;
mod head;
mod laws;
mod length;
mod message;
mod parse;
mod piece;
mod place;
mod reader;
mod scan;
mod section;
mod shown;
mod step;
mod target;
mod text;
mod trailers;
mod values;

pub use body::BodyReader;
pub use fault::H1Fault;
pub use laws::{
    chunk_line_grammar, heads_go_on, request_grammar, response_grammar, section_grammar,
    written_message_is_read,
};
pub use message::Message;
pub use piece::Piece;
pub use reader::HeadReader;
pub use section::{SectionRead, read_section};
