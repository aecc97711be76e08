// The pairing board over a source of offers.
#![tactic(auto)]

mod adjusting;
mod beginning;
mod blossom_questions;
pub mod board;
mod making;
mod questions;
pub mod saving;
mod writing;
