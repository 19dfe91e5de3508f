// What the reader of a listing answers, in the words of the request, and the two round trips: theorems in proofs/; no code.
#![tactic(auto)]
