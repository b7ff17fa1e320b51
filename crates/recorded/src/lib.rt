// No code: what the third demand says of a recorded drive. specs/ has the statement, proofs/ its proof.
#![tactic(auto)]
