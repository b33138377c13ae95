// Theorems on the definitions: their statements in specs/, their proofs in proofs/. There is no code here.
#![tactic(auto)]
