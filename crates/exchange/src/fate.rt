//! What ended an exchange, and how its stream ends.

/// Which messages had been given whole when an exchange ended.
#[derive(Clone, Copy)]
pub(crate) struct GivenWhole {
    pub request: bool,
    pub response: bool,
}

/// What ended an exchange.
///
/// ```text
///   Live ----> Left      the client left before its first byte
///     |------> Replied   a fault, or an immediate response, before the response's head
///     +------> Aborted   one behind it, and where there is nobody to reply to
/// ```
#[derive(Clone, Copy)]
pub(crate) enum Fate {
    Live,
    Left,
    Replied(GivenWhole),
    Aborted(GivenWhole),
}

/// The stream to the processor.
#[derive(Clone, Copy)]
pub(crate) struct Stream {
    /// An ask was made.
    pub asked: bool,
    /// It could not be opened.
    pub unopened: bool,
    /// It was closed: true where cleanly.
    pub closed: Option<bool>,
    /// How it is to be ended: true where it is finished, false where it is reset.
    pub ending: Option<bool>,
    /// That end was given.
    pub ended: bool,
}
