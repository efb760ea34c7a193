//! Which header fields an external processor may change, and what a mutation makes of a head or of trailers.
//!
//! The rules are `HeaderMutationRules` of `envoy.config.common.mutation_rules.v3`, with lists of prefixes in place of
//! expressions.
#![tactic(auto)]

mod change;
mod edit;
mod mutation;
mod names;
mod reply;
mod rules;
mod setup;
mod values;
mod verdict;

pub use mutation::{apply, judge};
pub use reply::reply_head;
pub use rules::{MutFault, PartKind, Rules};
pub use setup::{HalfFault, HalfSetup};
