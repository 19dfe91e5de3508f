// What the calls do to the frame summary, and what its counts mean: statements in specs/, proofs in proofs/; no code.
#![tactic(auto)]
