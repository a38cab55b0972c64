// Theorems about closing an order in one call (specs/); no code.
#![tactic(auto)]
