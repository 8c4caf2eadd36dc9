// No code: that no call changes how many words there are is in proofs/.
#![tactic(auto)]
