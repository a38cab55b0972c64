// What a step does to a lent record sheet: the conditions of a group's entries, and the writes to a group's lines.
#![tactic(auto)]

pub mod changes;
pub mod groups;
