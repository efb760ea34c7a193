//! An exchange by itself, for the program that measures it: it tests what each call has as its condition.
#![tactic(auto)]

mod driver;
mod fault;
mod setup;

pub use driver::Driver;
pub use fault::DriveFault;
pub use setup::Setup;
