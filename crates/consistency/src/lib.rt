//! Whether each value of a script can be used where it is. From a script whose names have their types come the types of all its
//! expressions, or the first fault of typing; the contract says that both are what the rules of typing give.
#![tactic(auto)]

mod expressions;
mod lines;
mod parts;
mod script;
mod trace;

pub use script::check;
