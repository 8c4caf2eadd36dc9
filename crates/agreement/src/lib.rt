// No code: that the words and the log tell the same is in specs/ (statements) and proofs/.
#![tactic(auto)]
