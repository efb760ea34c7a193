//! One exchange: a request and its response between a client, an upstream and a processor.
//!
//! An `Exchange` stands for the history of its calls as `filter_model` defines it (`specs/Stands.antt`), so that by the
//! headline every history is right and whole. It is told events (`step`) and has bytes for each side (`take`) and asks
//! for the processor (`next`). Each direction is a `Flow`: a reader of what its side brings, the half that asks and
//! changes, and the outlet of what goes out.
#![tactic(auto)]

mod answering;
mod asking;
mod ending;
mod exchange;
mod fate;
mod flow;
mod giving;
mod held;
mod modes;
mod order;
mod reading;
mod reply;
mod settings;
mod timing;

pub use exchange::Exchange;
