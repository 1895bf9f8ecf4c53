//! The code of one block: its expressions and statements by numbers, so that a thread needs no tree. A tree comes in, with the slots of
//! its block's names, and what comes out are nodes, whose parts are numbers of other nodes. Contracts say for which trees they stand.
#![tactic(auto)]

mod blocks;
mod data;
mod exprs;
mod put;
mod stmts;
mod texts;
mod types;

pub use blocks::{number_block, slots_for, slots_of};
pub use data::{ArgNode, Block, BranchNode, Code, Node, Pool, Slots, StmtNode, Tables, WithBlock};
pub use texts::{TextAt, TextList};
