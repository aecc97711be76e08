// The words of a sheet's text.
#![tactic(auto)]

pub mod token;
