// Worked cases of texts: sheets that are read, plans that are written.
#![tactic(auto)]

#[cfg(test)]
mod plans;
#[cfg(test)]
mod sheets;
