// No code: which lists the chains of the words hold is in specs/, what the operations on chains do to these lists in proofs/.
#![tactic(auto)]
