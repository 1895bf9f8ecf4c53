//! One obligation on one word. What a cast asks of a field and the word of the field's cell come in, and what comes out is what is to
//! be done: nothing, the inner object's fields first, one exchange of the word, or blame. The contract says which of these four it is,
//! and what the new word is. Nothing here takes memory.
#![tactic(auto)]

mod cells;
mod data;
mod demands;

pub use cells::Cells;
pub use data::{Demand, Obligation, Verdict};
pub use demands::{next_demand, resume_demand};

#[cfg(test)]
mod tests;
