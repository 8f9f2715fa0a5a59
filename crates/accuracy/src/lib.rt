// No code: how near the computed responses are to the exact ones. See specs/ and proofs/.
#![tactic(auto)]
