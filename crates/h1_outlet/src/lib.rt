//! The bytes on their way to one side: parts of a message come in as they are handed out, and leave as bytes, with how
//! many of them are of the body.
#![tactic(auto)]

mod going;
mod laws;
mod outlet;
mod parts;
mod sizes;

pub use going::Gave;
pub use laws::outlet_of_half;
pub use outlet::Outlet;
