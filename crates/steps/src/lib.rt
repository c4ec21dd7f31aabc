// Steps, done one after the other until the cut number is used up.

#![tactic(auto)]

pub mod budget;
pub mod run;
