//! Casts of one value agree in either order: what a cast to a type asks of heap and value, the weakest answer, and that
//! the machine's fit of a value leaves it. Definitions, and what follows from them alone.
#![tactic(auto)]

pub mod laws;
