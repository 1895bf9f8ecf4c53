//! The stress script: the number of its tasks comes in, and its text goes out. Each task counts up an object of its own, in
//! untyped code, behind a cast; the contract says the text line for line.
#![tactic(auto)]

pub mod laws;
mod lines;
mod script;

pub use script::{MOST_TASKS, script_of};

#[cfg(test)]
mod tests;
