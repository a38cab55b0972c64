// A history of calls as text: what its first line and its lines say, and what is replied to them. No call is made here, and nothing is read or printed.
#![tactic(auto)]

pub mod head;
pub mod reply;
pub mod room;
pub mod scan;
