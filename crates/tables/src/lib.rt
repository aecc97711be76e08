// What a board knows of its offers and holds as prices, pairs and blossoms, in tables of the largest size that a source may have.
#![tactic(auto)]

pub mod node;
pub mod tables;
pub mod view;
