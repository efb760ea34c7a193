//! What the external processing filter does: what it asks, what a message becomes under the answers, and when an
//! exchange is right.
//!
//! The definitions stand in `specs/`; read `Course` first, then `View`, `Account`, `Step` and `Right`.
#![tactic(auto)]

mod calls;
mod laws;

pub use calls::{Event, Loss, Next, Side, Taken};
pub use laws::{
    all_is_given, answer_told, asked_in_turn, asks_in_order, at_rest, calls_told,
    changed_only_grows, cut_head, done_stays, each_step, entry_told, few_unsent, given_is_counted,
    headline, known_is_enough, never_over, news_fit, nothing_told, over_told, parts_are_the_first,
    prefixes_stay, reading_told, rest_stays, settles_first, untold, what_waits,
};
