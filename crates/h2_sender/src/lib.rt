//! What an HTTP/2 session sends: the frames that wait, in the order in which they go, those that are held for their
//! stream's head, and the connection's sending window.
#![tactic(auto)]

mod block;
mod frames;
mod held;
mod outgoing;
mod places;
mod queue;
mod sender;
mod shares;
mod sums;

pub use queue::Taken;
pub use sender::Sender;
