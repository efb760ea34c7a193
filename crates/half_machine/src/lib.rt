//! One direction of a message on its way through the filter: which ask is due, which bytes are held, and what goes on.
//!
//! A half stands for the past of its calls as `filter_model` defines it (`specs/Stands.antt`): each of its fields is
//! what the definitions say. It is told what is read, answered, sent and given (`calls`, `answering`), and after each
//! call its head is chosen where it may go, and the asks that are due and permitted are made. It hands out these asks
//! (`handing`) and what the message has become (`giving`).
#![tactic(auto)]

mod answering;
mod asking;
mod beside;
mod calls;
mod choosing;
mod due;
mod facts;
mod giving;
mod half;
mod handing;
mod judging;
mod lengths;
mod marks;
mod own;
mod ready;
mod telling;

pub use beside::ask_size;
pub use half::Half;
