// Laws of the text in proofs/; no code. What was written reads back, and what is read was written so.
#![tactic(auto)]
