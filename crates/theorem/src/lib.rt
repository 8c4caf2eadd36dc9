// No code: the theorem over every list of calls, its statement in specs/ and its proof in proofs/.
#![tactic(auto)]
