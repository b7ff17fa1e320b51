// The third demand: no code, a statement about the engine in specs/ and its theorem in proofs/.
#![tactic(auto)]
