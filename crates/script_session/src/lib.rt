// The session of document 01 as a theorem, in proofs/; no code.
#![tactic(auto)]
