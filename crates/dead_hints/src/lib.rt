// Hints for `dead`: levels of the transitions, and the place by which each is first reached. Only proved safe.
#![tactic(auto)]

pub mod sweep;
pub mod ways;
