// No code: what searches, insertions and removals do to a table in the words, against the log's list of its records; statements in specs/, proofs in proofs/.
#![tactic(auto)]
