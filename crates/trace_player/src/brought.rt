//! What a line of a trace brought of one exchange.

ghost use Rattle.std.specs.Prelude.{[]};
ghost use Rattle.trace_player.specs.Ties.{Tells};

use pb_wire::Blob;
use std::alloc::Global;

/// What a line of a trace brought of one exchange. Of an end it is true where a link is done, or the stream is
/// finished, and false where it is aborted or reset.
#[derive(Drop)]
pub struct Brought {
    pub to_client: Vec<u8>,
    pub to_up: Vec<u8>,
    pub asks: Vec<Blob>,
    pub ending: Option<bool>,
    pub client_end: Option<bool>,
    pub up_end: Option<bool>,
}

impl Brought {
    /// Nothing.
    pub fn new(alloc: Global) -> Brought
        ensures { Tells [] result }
    {
        Brought {
            to_client: Vec::new(alloc),
            to_up: Vec::new(alloc),
            asks: Vec::new(alloc),
            ending: None,
            client_end: None,
            up_end: None,
        }
    }
}
