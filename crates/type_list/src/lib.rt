//! Lists of types in which each stands once, and in which a type's position is found without a walk. Contracts see the list.
#![tactic(auto)]

mod key;
mod list;

pub use list::{Placed, TypeList, with_type};
