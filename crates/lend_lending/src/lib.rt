// Laws on lending, translation and every call together, in proofs/; no code.
#![tactic(auto)]
