// Theorems about histories of calls and recovery (specs/); no code.
#![tactic(auto)]
