// Document 01's twelve examples on board K: the table in specs/, its theorem in proofs/; no code.
#![tactic(auto)]
