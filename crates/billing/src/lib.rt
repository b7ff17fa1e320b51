// No code: what is charged was decoded, a statement about runs in specs/ and its theorem in proofs/.
#![tactic(auto)]
