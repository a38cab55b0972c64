// The bytes of both sheets, read and written by index, so that calls above can speak of records, decisions and counts.
#![tactic(auto)]

pub mod coordinator;
pub mod fields;
pub mod keys;
pub mod layouts;
pub mod lines;
mod parts;
pub mod reading;
pub mod records;
pub mod settling;
pub mod writing;
