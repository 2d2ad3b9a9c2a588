// `start`, `step` and `run` of a graph that look has accepted, over its rows.
#![tactic(auto)]

pub mod graph;
