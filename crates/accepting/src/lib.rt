// Refusals 10 and 11: is this a marking, and do firings lead to it from the start?
#![tactic(auto)]

pub mod accepts;
pub mod fits;
