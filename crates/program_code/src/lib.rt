//! A script with its casts by numbers, so that a machine needs no tree, no name and no text to take a step. The script comes in, well
//! typed, with the table of its types, and what comes out are the blocks of its functions and its main block, its classes, types, texts
//! and sites, each by number. The contract says that they are the same script.
#![tactic(auto)]

mod classes;
mod count;
mod data;
mod functions;
mod looks;
mod script;
mod types;

pub use count::{MOST_CLASSES, MOST_FUNCTIONS, MOST_SITES};
pub use data::{ClassCode, FunctionCode, Program};
pub use script::number;
