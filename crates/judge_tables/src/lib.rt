// Rows 5 and 6: every operation's time, and every edge's ends and bytes.
#![tactic(auto)]

pub mod edges;
pub mod operations;
