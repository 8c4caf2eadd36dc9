// No code: what the calls answer, in the words of the log, is in specs/.
#![tactic(auto)]
