//! What goes out to the processor, in every history of a hub.
//!
//! [`hub_model`] says what is handed to the session of the connection. `specs/Outgoing` says what goes out of it, in
//! which order, and when that is right; `specs/Windows` what the windows let go.
#![tactic(auto)]

mod laws;

pub use laws::{streams_go_out_right, windows_are_kept};
