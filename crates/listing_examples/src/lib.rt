// What M-102 says of listings as theorems, each on a text of its own, in proofs/; no code.
#![tactic(auto)]
