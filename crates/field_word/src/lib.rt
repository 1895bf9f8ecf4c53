//! The word in which shared memory keeps a value beside the number of its type. A pair comes in and its word goes out, and
//! back; the contracts say what the word is, and that a word gives its pair exactly where it is some pair's word.
#![tactic(auto)]

pub mod laws;
mod layout;
mod packing;
mod unpacking;

pub use packing::pack;
pub use unpacking::unpack;

#[cfg(test)]
mod tests;
