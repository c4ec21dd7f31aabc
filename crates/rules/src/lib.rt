// The rules of the card. specs/ is document 01 as definitions, in its order and words; here are the types that they speak of, with their methods.

#![tactic(auto)]

pub mod answer;
pub mod block;
pub mod kind;
pub mod page;
pub mod refusal;
pub mod shape;
