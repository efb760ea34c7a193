//! The commands of the program, over any source and sink.
#![tactic(auto)]

mod laws;
mod parse;
mod replay;
mod scan;
mod show;
mod show_h2;
mod status;
mod streams;
mod top;
mod words;

pub use laws::{always_right, one_verdict};
pub use parse::command;
pub use status::Status;
pub use top::run;
pub use words::{Address, Command};
