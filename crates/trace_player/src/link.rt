//! A link of an exchange.

ghost use Rattle.std.specs.Prelude.{◌≡◌, ◌&&◌, false, not};
ghost use Rattle.trace_model.specs.Links.{idle_link};
ghost use Rattle.trace_player.specs.Ties.{link_of};

use crate::waiting::Waiting;
use std::alloc::Global;

/// What arrived on a link and wasn't fed, and whether its port is taken from.
#[derive(Drop)]
pub struct Link {
    pub waiting: Waiting,
    /// The link ends behind these bytes.
    pub ended: bool,
    /// The exchange was told of that end.
    pub told: bool,
    /// Nothing is taken from the port.
    pub held: bool,
    /// The transcript has the end of what goes out to it.
    pub over: bool,
}

impl Link {
    /// A link on which nothing arrived.
    pub fn new(alloc: Global) -> Link
        ensures idle { link_of result ≡ idle_link }
        ensures over { result.over ≡ false }
    {
        Link {
            waiting: Waiting::new(alloc),
            ended: false,
            told: false,
            held: false,
            over: false,
        }
    }

    /// Whether its end is due once nothing waits.
    pub fn is_ending(&self) -> bool
        ensures { result ≡ (self.now.ended && not self.now.told) }
    {
        self.ended && !self.told
    }
}
