// The theory of marked graphs. It has no code: its mathematics is in specs/ and proofs/.
#![tactic(auto)]
