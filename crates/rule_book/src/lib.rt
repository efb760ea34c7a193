//! What a processor answers: stages that are asked in order, the rules that a JSON object writes down, and a quota.
#![tactic(auto)]

mod book;
mod given;
mod quota_stage;
mod rule_stage;
mod ruled;
mod stage;

pub use book::{BodyRule, PartRules, Quota, RuleBook};
pub use quota_stage::QuotaStage;
pub use rule_stage::RuleStage;
pub use stage::{Stage, Verdict};
