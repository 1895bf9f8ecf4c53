//! From the tokens of a script to its tree. Tokens and their text come in, and the tree goes out, or a refusal at the first
//! token that no script has there. The contract says that the tree is the one that the grammar gives.
#![tactic(auto)]

mod arguments;
mod around;
mod class;
mod ending;
mod expressions;
mod function;
pub mod laws;
mod parsing;
mod script;
mod stage;

pub use parsing::parse;
