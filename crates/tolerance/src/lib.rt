// No code: how far an accepted centre of mass lies from the exact one. See specs/ and proofs/.
#![tactic(auto)]
