//! The cast calculus runs: a script with its casts and settings come in, and what comes out is a configuration, its next
//! step by a thread, and what a whole run shows. The contracts say that each step is the one that the machine's rows give.
#![tactic(auto)]

mod config;
pub mod laws;
mod seed;
mod surface;

pub use cast_machine::{Cell, End, Observation, Settings};
pub use config::Config;
pub use seed::{next_seed, pick};
pub use surface::{observe, runnable, step};
