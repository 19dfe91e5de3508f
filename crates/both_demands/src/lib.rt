// The same command on both switches, for the two models' functions as they are called: statements in specs/, proofs in proofs/; no code.
#![tactic(auto)]
