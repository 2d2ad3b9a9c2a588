// The word of 64 bits that an exported function answers: a reply's number, place and count.
#![tactic(auto)]

pub mod numbers;
pub mod word;
