// `wait` of a graph that look has accepted, over its rows.
#![tactic(auto)]

pub mod answer;
pub mod sum;
