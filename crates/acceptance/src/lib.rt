// What the buyer demands, stated over the crates' own contracts and proved. It has no code: the statements stand in specs/, the proofs in proofs/.
#![tactic(auto)]
