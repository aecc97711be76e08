// Worked cases of sources: lists, layers over them, lengths.
#![tactic(auto)]

#[cfg(test)]
mod asked;
#[cfg(test)]
mod frames;
#[cfg(test)]
mod piles;
