// Why an input is refused: one enum for each layer, the whole fault over them, and its three numbers.
#![tactic(auto)]

pub mod code;
pub mod fault;
pub mod layers;
