//! Types and expressions, from tokens to trees. Tokens and their text come in, with a position and a room for weight; out come
//! the tree and the position behind it, or a refusal at the first token that can't go on. The contracts say that what is read is
//! the longest stretch of tokens that begins a type or an expression by the grammar, and that it is a tree exactly where the
//! grammar has one for it.
#![tactic(auto)]

pub mod laws;
pub mod machine;
mod parsing;
mod precedence;
mod reader;
mod types;

pub use parsing::{parse_expr, parse_type, refused};
pub use precedence::{op_left, op_right, op_whole};

#[cfg(test)]
mod tests;
