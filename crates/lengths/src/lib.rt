// A frame given by its member lengths, the stock lengths and the saw cut, as a source of offers.
#![tactic(auto)]

pub mod length_source;
