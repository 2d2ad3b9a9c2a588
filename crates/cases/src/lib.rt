// The worked graphs. It has no code: the table is in specs/, and that it holds is proved in proofs/.
#![tactic(auto)]
