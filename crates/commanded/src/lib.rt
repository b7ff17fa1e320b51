// No code: what the third demand says of a handset that is commanded through a register block. specs/ has the statement, proofs/ its
// proof.
#![tactic(auto)]
