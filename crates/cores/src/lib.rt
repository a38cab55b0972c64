// The calls of a transaction on two lent sheets that the check has let pass, but for its reads. A refusal leaves both sheets as they were.
#![tactic(auto)]

pub mod abort;
pub mod advance;
pub mod begin;
pub mod close;
pub mod put;
