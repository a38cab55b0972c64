// Theorems about clients that keep lists of transactions (specs/); no code.
#![tactic(auto)]
