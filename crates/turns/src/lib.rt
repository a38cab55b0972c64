// Theorems about operations, turns and histories of turns (specs/); no code.
#![tactic(auto)]
