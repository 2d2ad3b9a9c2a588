// Firing a transition, over the rows of a graph: the place that keeps it from firing, the tokens that it moves, and one step with its refusals.
#![tactic(auto)]

pub mod fire;
pub mod step;
