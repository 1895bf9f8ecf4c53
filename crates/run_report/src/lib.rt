//! What a run or a refusal reports: its status and its line for the err stream. An end comes in with its program, and what comes out are the
//! status and the line that belong to it; the contract says which, each text once.
#![tactic(auto)]

mod ends;

pub use ends::{end_line, refusal_line, status_of};
