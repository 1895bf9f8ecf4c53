//! The front end in one call: the bytes of a script come in, and what comes out is the script with its casts and the same by numbers, or the
//! first refusal of the phases in their order. The contract says that both are what the rules of the language give, and that the script with
//! its casts is well typed.
#![tactic(auto)]

mod accepted;
mod numbers;
mod phases;

pub use accepted::Accepted;
pub use phases::load;
