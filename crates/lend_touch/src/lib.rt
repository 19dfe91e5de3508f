// What stands behind a page, and which calls can change it: statements in specs/, proofs in proofs/; no code.
#![tactic(auto)]
