//! Tokens as the grammar takes them: each with what it spells, and its place. Tokens and their text come in; a name comes
//! out with its text, a number and a string with their values, and every word and operator as itself. The contract says
//! that `spell` is the function of that name, which the grammar's definitions rest on.
#![tactic(auto)]

mod cutting;
mod token;
mod words;

pub use token::{Mark, Spelled, What, spell};
