// Sources of offers: what a pairing is made from, and what is known of it.
#![tactic(auto)]

pub mod list_source;
pub mod offer;
pub mod pile;
pub mod source;
