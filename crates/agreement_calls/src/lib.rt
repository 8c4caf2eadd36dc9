// No code: agreement of every call, in proofs/.
#![tactic(auto)]
