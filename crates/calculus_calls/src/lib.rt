//! The rows of new objects, calls, threads and returns, as the definitions of the same names in `cast_machine` say.
#![tactic(auto)]

mod calls;

pub use calls::{
    all_finished, begin, call, enter, fall, finished, join, leave, new_object, take_args, unbound,
};
