// The plan of a board as a value, and when two plans are the same.
#![tactic(auto)]

pub mod plan;
pub mod sameness;
