// The calls of a history, on sixteen transactions: what a line asks of the engine, and what is replied once that was performed. No sheet is seen here,
// so that the programs for the joined sheet and for two share it, and nothing is read or printed.
#![tactic(auto)]

pub mod by_hand;
pub mod calls;
pub mod slots;
