// No code: proofs about the words and the log are in proofs/.
#![tactic(auto)]
