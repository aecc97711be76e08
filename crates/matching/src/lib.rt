// Matching theory: offers as rows, pairings and their savings, the states of a board, and how much a pairing can hold and show.
#![tactic(auto)]

pub mod examples;
pub mod pairing;
pub mod row;
#[cfg(test)]
mod tests;
pub mod theorems;
