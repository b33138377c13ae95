// Theorems on the exported calls: their statements in specs/, their proofs in proofs/. There is no code here.
#![tactic(auto)]
