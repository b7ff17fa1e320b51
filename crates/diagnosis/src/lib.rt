// No code: that the cause of a silence is true in every run of the third demand. specs/ has the statement, proofs/ its proof.
#![tactic(auto)]
