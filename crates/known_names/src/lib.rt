//! What is known of a script's names once they have their types: the types of its classes and functions, and the names of
//! each block with their types. It comes from the scope, and the contracts say that it is what the rules say.
#![tactic(auto)]

mod annotations;
mod gather;
mod known;
mod known_classes;
pub mod laws;
mod named;
mod types;

pub use annotations::written;
pub use gather::known_in;
pub use known::{Known, KnownClass, KnownScript, Local, field_of};
pub use known_classes::KnownClasses;
pub use named::NamedTypes;
pub use types::{is_consistent, is_dyn, is_fully_static, is_precise, new_type};
