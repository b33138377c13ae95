// No code: what the calls that read and write promise together, in specs/ and proofs/.
#![tactic(auto)]
