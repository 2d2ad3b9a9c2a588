// The report of a graph that look has accepted, over its rows, and what `report` replies.
#![tactic(auto)]

pub mod answer;
pub mod reply;
mod waits;
