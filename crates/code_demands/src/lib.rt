// No code: what the demands say of the functions as they are called, in specs/ and proofs/.
#![tactic(auto)]
