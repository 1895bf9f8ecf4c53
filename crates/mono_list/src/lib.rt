//! Containers that contracts see as what they hold: a stack as the list with its top first, slots as a list that is
//! changed by place, a shared value as the value. Trees and machine states are made of them, so that contracts speak of
//! lists and trees, and never of pointers.
#![tactic(auto)]

mod shared;
mod slots;
mod stack;
mod tiers;

pub use shared::Shared;
pub use slots::Slots;
pub use stack::Stack;
pub use tiers::Tiers;
