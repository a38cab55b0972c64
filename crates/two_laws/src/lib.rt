// Theorems about the plain sheet and the bookkeeping sheet (specs/); no code.
#![tactic(auto)]
