// Reading a sheet of offers: the reader that takes its forms line by line.
#![tactic(auto)]

pub mod reader;
