// No code: what each call does to a scheduler's words is in specs/.
#![tactic(auto)]
