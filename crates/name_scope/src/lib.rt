//! The names of a script. A script comes in, and what comes out is the script with the types of its names, or the first
//! refusal for a name. The contracts say that the refusal is the first by place of all faults of names.
#![tactic(auto)]

mod blocks;
mod bodies;
mod bound;
mod collect;
mod faults;
mod roles;
mod rules;
mod scoping;
mod statements;
mod table;
mod typing;

pub use faults::name_refusal;
pub use roles::Roles;
pub use scoping::scope;

#[cfg(test)]
mod tests;
