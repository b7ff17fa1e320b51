// The worked cases of document 01: no code, one fact about the definitions in specs/, proved in proofs/.
#![tactic(auto)]
