//! Casts in their places. From a script whose expressions have types comes the script with a cast wherever a value of one type is used
//! at another, and its sites; the contract says that it is the one that the rules of casts give.
#![tactic(auto)]

mod expressions;
mod functions;
mod line_uses;
mod lines;
mod numbering;
mod parts;
mod script;
mod states;
mod uses;

pub use script::insert;
pub use written_types::script_types;
