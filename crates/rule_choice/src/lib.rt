//! The rule of typing for one construct whose parts have their types: which rule it is, where its names are known, or why there is
//! none. The contracts say that it is the one that the rules give, and so serve whoever types a script and whoever puts casts in.
#![tactic(auto)]

mod endings;
mod parts;
mod places;
mod rules;

pub use endings::may_end;
pub use parts::{Part, are_two_dyn, first_apart};
pub use places::place_of;
pub use rules::{called_class, first_member, first_rule, refused, rule_of};
