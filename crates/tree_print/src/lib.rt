//! Scripts as text: a tree comes in, and the text of a script with that tree goes out. The contract says which text it is, and that
//! it reads back: by the lexical rules and the grammar it has the same tree but for places.
#![tactic(auto)]

mod definitions;
mod expressions;
mod printing;
mod simple;
mod statements;
mod tokens;
mod types;

pub use cast_lines::print_casts;
pub use printing::print_script;
