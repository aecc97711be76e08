// Worked cases, run through the libraries that the programs call.
#![tactic(auto)]

#[cfg(test)]
mod answers;
#[cfg(test)]
mod boards;
