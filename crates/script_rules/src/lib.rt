//! What the names of a script mean, and which script is refused for them: its classes and functions, the types that
//! annotations write, the names of each block with their types, and the faults of names and sizes. Definitions, and the
//! type of a name where it stands: the phases that find names and types cite them.
#![tactic(auto)]

pub mod laws;
mod occurrence;

pub use occurrence::{Occurrence, Role};
