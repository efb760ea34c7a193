//! What a hub does: all exchanges over one connection to the processor.
//!
//! The definitions stand in `specs/`; read `HubCalls` first, then `World`, `Meeting`, `Hearing`, `Sending` and
//! `Happens` for what calls come to, `Allowed` for what each call may answer, and `HubRight` for what is right.
#![tactic(auto)]

mod laws;
mod ports;

pub use laws::{
    distant_calls_are_silent, each_exchange_right, others_untouched, streams_apart, streams_right,
};
pub use ports::{OpenFault, PortName};
