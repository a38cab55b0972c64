// The calls on sheets that take no transaction: the check, and the look-up of a key.
#![tactic(auto)]

pub mod check;
pub mod lookup;
