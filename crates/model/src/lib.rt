// No code: document 01 as a machine on plain lists is in specs/, what is proved of it in proofs/.
#![tactic(auto)]
