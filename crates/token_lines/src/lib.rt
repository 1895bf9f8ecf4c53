//! Lines of tokens, as text: how each token is spelled, where a space stands between two, and how lines are indented. Lines come
//! in, and their text goes out. The contracts say which text it is. That the text has these tokens by the lexical rules is a lemma
//! here, on which the contract of the printing of scripts rests.
#![tactic(auto)]

mod indent;
mod page;
mod printed;

pub use indent::Indent;
pub use page::Page;
pub use printed::{Printed, Shape};
