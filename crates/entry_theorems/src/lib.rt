// No code: what the calls on tables and the calls on records promise together, in specs/ and proofs/.
#![tactic(auto)]
