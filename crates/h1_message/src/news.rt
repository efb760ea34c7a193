//! What a call tells of a message.

use ext_msgs::FieldList;
use h1_read::{H1Fault, Message};
use pb_wire::Blob;

/// What one call tells of a message.
#[derive(Drop)]
pub struct News {
    /// The head, where this call made it whole.
    pub head: Option<Message>,
    /// The body bytes that came.
    pub body: Blob,
    /// Whether the message is whole by now.
    pub whole: bool,
    /// The trailers, where this call made the message whole.
    pub trailers: FieldList,
    /// What is wrong with the message by now; never `Memory`.
    pub fault: Option<H1Fault>,
}
