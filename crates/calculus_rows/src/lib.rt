//! The rows of statements and expressions: each takes the top frame of a thread and gives the outcome of its step, as the
//! definition of the same name in `cast_machine` says.
#![tactic(auto)]

mod rows;

pub use rows::{
    begin_turn, binary, block, branch, eval, forget, neg, not, short, statement_row, store, turn,
};
