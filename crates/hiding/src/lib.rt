// No code: what losses can hide in a run of the third demand, and that the game is about its windows. specs/ has the statement, proofs/ its
// proof.
#![tactic(auto)]
