// The specification (specs/): definitions only. No code.
#![tactic(auto)]
