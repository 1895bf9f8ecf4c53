//! What the rows of the machine are made of: values and their operators, types, the heap, copies of all parts of a
//! configuration, and outcomes. Each function gives what the definition of its name in `cast_machine` says.
#![tactic(auto)]

mod copies;
mod heap;
mod operators;
mod outcomes;
mod types;

pub use copies::{copy_lines, copy_object, copy_threads, copy_val, share_otherwise};
pub use heap::{Heap, size};
pub use operators::{negated, operate};
pub use outcomes::{blames, fails, goes, push_leaving, puts};
pub use types::{is_dyn, is_fully_static, is_precise, is_same, meet, members_of};
