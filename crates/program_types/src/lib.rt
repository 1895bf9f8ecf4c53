//! The types of a script with its casts: each stands in the closed list of those that the script writes. So each
//! has a number in that list. Laws alone, no code.
#![tactic(auto)]

pub mod laws;
