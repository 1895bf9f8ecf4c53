//! The types of a script's classes, and those that its annotations write. A script comes in; out come the types, each
//! once, or the first place where a class leads back to itself, or the first place where something is too large.
#![tactic(auto)]

mod block;
mod faults;
mod first;
mod graph;
pub mod laws;
mod leading;
mod made;
mod measure;
mod names;
mod place;
mod ranks;
mod recursion;
mod settle;
mod sized;
mod sizes;
mod table;
mod walk;

pub use first::sooner;
pub use recursion::recursive_fault;
pub use sizes::size_refusal;
pub use table::{ClassTypes, class_types, function_type, written, written_any};
