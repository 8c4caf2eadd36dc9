// No code: what the program answers to any script, its statement in specs/ and its proof in proofs/.
#![tactic(auto)]
