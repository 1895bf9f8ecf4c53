//! What the grammar says of a tree beside its form: each integer literal fits, each `if` has a branch, and a return stands in a
//! function alone. Definitions alone; reading a script promises them, and typing builds on them.
#![tactic(auto)]
