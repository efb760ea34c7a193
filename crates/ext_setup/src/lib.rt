//! What a server reads before it serves: its whole input, which is a configuration.
#![tactic(auto)]

mod fault;
mod input;
mod setup;

pub use fault::SetupFault;
pub use setup::setup_proxy;
