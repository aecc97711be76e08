// A stack over slots that are handed in.
#![tactic(auto)]

pub mod stack;
