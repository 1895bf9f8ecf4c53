//! The machine of the cast calculus as data: heap, frames, work items and threads, with the definition of one step of one
//! thread, of a run over a list of picks, and of what a well-typed configuration is. Nothing runs here: the crate above
//! runs the machine, and its contracts cite these definitions.
#![tactic(auto)]

mod data;
pub mod laws;
mod map;

pub use data::{
    Cell, Change, Counted, End, Fit, Frame, Object, Observation, Operated, Outcome, Ready,
    Settings, State, Thread, Verdict, Work,
};
pub use map::NameMap;
