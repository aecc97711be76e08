// The lines of a sheet, one by one: what each says.
#![tactic(auto)]

pub mod form;
