//! Types by the numbers of their parts. A list of types comes in, each with its shape, and goes out with all meets of its members;
//! the contracts say that it is the closed list, or that the closed list has a first member at fault. Meets go by the numbers of
//! the parts and a table of the meets of smaller numbers, so no type is made that is there already.
#![tactic(auto)]

mod limits;
mod made;
mod measure;
mod meets;
mod numbering;
mod putting;
mod rows;
mod shape;

pub use limits::MOST_TYPES;
pub use meets::met_no;
pub use putting::put_numbered;
pub use rows::all_rows;
pub use shape::{Head, Shape};

#[cfg(test)]
mod tests;
