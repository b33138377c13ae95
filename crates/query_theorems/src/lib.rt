// No code: what the calls that answer questions promise together, in specs/ and proofs/.
#![tactic(auto)]
