// Laws of whole numbers for code: signed arithmetic, sums, sizes, floor. It has no code: the definitions stand in specs/, the laws in proofs/.
#![tactic(auto)]
