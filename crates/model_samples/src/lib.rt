// No code: document 01's samples as calls on the log are in specs/, and what they answer is computed in proofs/.
#![tactic(auto)]
