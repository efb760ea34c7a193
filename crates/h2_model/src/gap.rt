//! Numbers of streams that were never opened.

/// Numbers that a peer passed over: odd ones from the first to the last.
#[derive(Clone, Copy)]
pub struct Gap {
    pub first: u32,
    pub last: u32,
}
