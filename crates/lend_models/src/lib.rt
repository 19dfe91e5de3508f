// The two models together: a board of smaller sizes as one of larger sizes, and the same command on both. No code.
#![tactic(auto)]
