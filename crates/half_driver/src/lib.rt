//! A half by itself, for the programs that play and measure it: it tests what each call has as its condition.
#![tactic(auto)]

mod driver;
mod fault;

pub use driver::Driver;
pub use fault::DriveFault;
