// Document 01 as definitions on lists of bytes, in specs/, and laws about them, in proofs/. There is no code here.
#![tactic(auto)]
