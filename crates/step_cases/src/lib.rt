// Worked sequences of steps on boards.
#![tactic(auto)]

#[cfg(test)]
mod exchanges;
#[cfg(test)]
mod looks;
#[cfg(test)]
mod nests;
#[cfg(test)]
mod scripts;
#[cfg(test)]
mod shrinks;
