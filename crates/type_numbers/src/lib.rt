//! The types of a closed list by number. The list comes in with the types of the classes, and what comes out answers what a
//! machine asks of types, each answer found without a walk over trees and without memory; the contracts see two lists of types.
#![tactic(auto)]

mod looks;
mod making;
mod table;

pub use table::TypeTable;

#[cfg(test)]
mod tests;
