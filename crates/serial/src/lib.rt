// Theorems about the serial order of checked transactions (specs/); no code.
#![tactic(auto)]
