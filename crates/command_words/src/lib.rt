//! The command line: the words after the program's name come in, and the command that they ask for goes out. The contract says that
//! it is the one that the rule of command lines gives them, and that they are refused exactly where it gives none.
#![tactic(auto)]

mod command;
mod fault;
mod laws;
mod number;
mod parser;
mod read;

pub use command::Command;
pub use fault::WordsFault;
pub use laws::one_command;
pub use read::read_words;

#[cfg(test)]
mod tests;
