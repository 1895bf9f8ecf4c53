//! The types that a script writes, in source order. A script with its casts comes in, and what comes out is one list: the types of its
//! classes and functions at their definitions, and those of annotations and cast targets at their place. A type may come more than once.
#![tactic(auto)]

mod annotations;
mod items;
pub mod laws;
mod walk;

pub use items::script_types;
