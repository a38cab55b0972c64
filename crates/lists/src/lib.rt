// Laws on lists, tests and choices that several crates cite (specs/). No code.
#![tactic(auto)]
