// The customer's demands as theorems over the sizes: statements in specs/, proofs in proofs/; no code.
#![tactic(auto)]
