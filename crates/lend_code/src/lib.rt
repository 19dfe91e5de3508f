// What the code of both models is proved by: in specs/ what its inner functions compute, in proofs/ the laws of its loops; no code.
#![tactic(auto)]
