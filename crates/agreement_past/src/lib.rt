// No code: that no call writes past the words that its limits need is in proofs/.
#![tactic(auto)]
