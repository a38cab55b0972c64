// Theorems about sheets (specs/): what is read is what would be written. No code.
#![tactic(auto)]
