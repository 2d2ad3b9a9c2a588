// The computational graph as it is lent, and a fraction of time per token: what a place weighs at it, and its lowest terms.
#![tactic(auto)]

pub mod load;
pub mod lowest;
