// No code: that no reader of multiplexed replies could credit more than the station's. specs/ has the statement, proofs/ its proof.
#![tactic(auto)]
