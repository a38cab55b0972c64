// Theorems about the calls; no code.
#![tactic(auto)]
