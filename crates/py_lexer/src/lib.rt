//! A script's bytes to its tokens. Bytes come in and become text, text becomes tokens with their slices and places; the
//! contracts say which tokens a text has, and which is the first fault of a text that has none.
#![tactic(auto)]

mod bytes;
mod fault;
pub mod laws;
mod lexer;
mod piece;
mod reserved;
mod spot;
mod state;
mod text;
mod token;

pub use bytes::decode;
pub use lexer::lex;
pub use token::{Token, TokenKind};
