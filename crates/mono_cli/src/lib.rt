//! The top call: the words of a command come in with a shelf and two sinks, and a status goes out. The contract says that
//! the status and what was put on the sinks are the answer of the language's rules to the script's bytes, that a script is
//! refused exactly where the rules refuse it, that the run of every other one is safe, and that its printed text reads back.
#![tactic(auto)]

mod listing;
mod putting;
mod refusals;
mod render;
mod run;
mod top;
mod verb;

pub use top::plain_main;
