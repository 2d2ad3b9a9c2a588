// A run over the rows of a graph: a list of entries, taken one at a time.
#![tactic(auto)]

pub mod repeat;
