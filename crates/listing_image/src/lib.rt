// What the calls from C that write and read a listing leave behind, in specs/, and the laws for them, in proofs/; no code.
#![tactic(auto)]
