// The demands on the finder as one theorem. See specs/ and proofs/.
#![tactic(auto)]

ghost use Rattle.demands.specs.Demands.{Demands};

// Computes nothing: its promise is that the demands are met.
pub fn met()
    ensures { Demands }
{}
