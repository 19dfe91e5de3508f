// Laws on what calls do to a sound board, in proofs/; no code.
#![tactic(auto)]
