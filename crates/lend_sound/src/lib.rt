// Laws on lines and on soundness, in proofs/; no code.
#![tactic(auto)]
