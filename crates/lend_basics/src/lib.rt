// Laws on tests, rights and lists, in proofs/; no code.
#![tactic(auto)]
