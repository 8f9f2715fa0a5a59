// No code: the original's functions line by line, and that the definitions give the same values. See specs/ and
// proofs/.
#![tactic(auto)]
