//! Static typing: which type each expression has, at which type a value is used, and what is wrong where it can't be.
//! Definitions, and what follows from them alone.
#![tactic(auto)]

pub mod laws;
mod rule;

pub use rule::Rule;
