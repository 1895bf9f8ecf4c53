//! Casts in their places: what each expression and statement of a script becomes where a value of one type is used at another,
//! and the sites at which a run can be blamed or fail. Definitions, and what follows from them alone.
#![tactic(auto)]

pub mod laws;
mod site;

pub use site::TypedSite;
