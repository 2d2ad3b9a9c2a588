// What stands in the computational graph before anything fires: the tokens of every place, and the time of every transition.
#![tactic(auto)]

pub mod start;
pub mod times;
