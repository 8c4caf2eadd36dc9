// No code: what the theorem says in the words of a user is in proofs/.
#![tactic(auto)]
