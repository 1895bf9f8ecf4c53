//! The closed list of types. Given types come in, and out goes the list of the base types, the given types with their parts, and all
//! meets; the contracts say that it is the closed list, or that the closed list has a first member at fault.
#![tactic(auto)]

mod adding;
mod closing;
pub mod laws;

pub use closing::close;

#[cfg(test)]
mod tests;
