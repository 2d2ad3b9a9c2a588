// The bounds of a graph that look has accepted, over its rows, and what `bounds` replies.
#![tactic(auto)]

pub mod answer;
pub mod measure;
pub mod reply;
