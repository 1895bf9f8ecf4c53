//! What expressions make of values by number. Values come in with a table of types, and what comes out is the result of an operator,
//! a fit of a value to a type, or the cell of a field; the contracts say which, and when there is none. Nothing here takes memory.
#![tactic(auto)]

mod data;
mod fits;
mod operators;

pub use data::{Fit, OpFault};
pub use fits::{fit, member};
pub use operators::{binary, negate};

#[cfg(test)]
mod tests;
