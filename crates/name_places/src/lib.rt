//! Lists of names in which a name's first place is found without a walk. Contracts see the list; the laws say that whatever stands
//! in a list beside its names is found by that place.
#![tactic(auto)]

mod places;

pub use places::NamePlaces;
