// Sheets to lent lists of numbers and back.
#![tactic(auto)]

pub mod decisions;
pub mod records;
mod rows;
mod rules;
