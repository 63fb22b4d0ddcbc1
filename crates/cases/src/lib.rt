// The cases of an independent model, on values: each function answers the line that is printed for a case.
#![tactic(auto)]

pub mod frames;
pub mod lanes;
pub mod records;
pub mod words;
