//! The rows that look at a value's type or at one cell of the heap: fits, reads, obligations and writes. Each decides by a
//! verdict on the cell, in one step, as the definition of the same name in `cast_machine` says.
#![tactic(auto)]

mod cells;
mod fits;

pub use cells::{Demand, Writing, obligation, read, write};
pub use fits::{fit_at, fit_top};
