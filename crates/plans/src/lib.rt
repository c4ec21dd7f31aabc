// The plan of a write, from the records, and that of a logical block made anew.

#![tactic(auto)]

pub mod plan;
pub mod renewal;
