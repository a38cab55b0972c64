// Theorems about the operations on a plain sheet and a bookkeeping sheet (specs/); no code.
#![tactic(auto)]
