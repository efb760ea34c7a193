//! The configuration of the external processing filter: one JSON object.
#![tactic(auto)]

mod config;
mod keys;
mod reading;
mod sections;
mod unknown;
mod values;

pub use config::{Config, ConfigFault};
pub use reading::read_config;
