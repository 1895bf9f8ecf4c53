//! The list of a script's casts as text: the sites of a script come in, and a line for each of them that a value passes goes out. The
//! contract says which lines, and in which order.
#![tactic(auto)]

mod listing;
mod rows;

pub use listing::print_casts;
