//! The machine that reads a type or an expression one token at a time. `parse_type` and `parse_expr` drive it over a list of
//! tokens; `parse_script` drives it inside its own machine, which reads the whole script in one pass, so that an expression's
//! end is found where its reading stops.
//!
//! A reading begins at `Mode::Want` (`TypeMode::Want`) with no frames. `step` (`type_step`) takes it over a token, or stops with
//! the tree that was read, or with none; `finish` (`type_finish`) tells whether what was read so far is a tree.
pub use crate::reader::{finish, step};
pub use crate::types::{type_finish, type_step};
use mono_list::Stack;
use mono_syntax::{Ann, Expr, Op, Place, Word};
use sqlite_items::Items;

/// What stands to the left of a part of a type that is still read: the place of the `Callable`, and its parameters so far
/// with the greatest weight among them.
#[derive(Drop)]
pub enum TypeFrame {
    /// A parameter is read.
    Params(Place, Items<Ann>, u32),
    /// The result is read.
    Result(Place, Items<Ann>, u32),
}

/// Where the reading of a type stands.
#[derive(Drop)]
pub enum TypeMode {
    /// A type is wanted.
    Want(Stack<TypeFrame>),
    /// Behind `Callable`.
    Outer(Place, Stack<TypeFrame>),
    /// Behind `Callable [`.
    Inner(Place, Stack<TypeFrame>),
    /// Behind `Callable [ [`.
    First(Place, Stack<TypeFrame>),
    /// Behind the `]` of the parameters.
    Between(Place, Items<Ann>, u32, Stack<TypeFrame>),
    /// A type was read, of this weight.
    Have(Stack<TypeFrame>, Ann, u32),
}

/// A type that was read, and its weight.
#[derive(Drop)]
pub struct Weighed {
    pub ann: Ann,
    pub weight: u32,
}

/// What a token does: the reading goes on, or it stops with a type or none.
#[derive(Drop)]
pub enum TypeNext {
    Go(TypeMode),
    Stop(Option<Weighed>),
}

/// A binary operator.
#[derive(Clone, Copy)]
pub enum Link {
    Or,
    And,
    Operator(Op),
}

/// What stands to the left of a part of an expression that is still read.
#[derive(Drop)]
pub enum Frame {
    /// The operator and its place, the left part and its weight.
    Binary(Link, Place, Expr, u32),
    Not(Place),
    Neg(Place),
    Bracket,
    /// The bracket's place, the callee, the greatest weight so far, the arguments so far.
    Call(Place, Expr, u32, Items<Expr>),
    /// The word's place, the type and its weight.
    Cast(Place, Ann, u32),
}

/// A part of an expression that was read, its weight, and what stands to its left.
#[derive(Drop)]
pub struct Held {
    pub stack: Stack<Frame>,
    pub tree: Expr,
    pub weight: u32,
}

/// Where the reading of an expression stands.
#[derive(Drop)]
pub enum Mode {
    /// A part is wanted.
    Want(Stack<Frame>),
    /// A part was read.
    Have(Held),
    /// Behind a `.`.
    Dotted(Held),
    /// Behind `cast`.
    CastWord(Place, Stack<Frame>),
    /// In the type of a cast.
    CastType(Place, Stack<Frame>, TypeMode),
    /// Behind `join`.
    JoinWord(Place, Stack<Frame>),
    /// Behind `join (`.
    JoinOpen(Place, Stack<Frame>),
    /// Behind `join ( NAME`.
    JoinName(Place, Word, Stack<Frame>),
}

/// What a token does: the reading goes on, or it stops with an expression or none.
#[derive(Drop)]
pub enum Next {
    Go(Mode),
    Stop(Option<Expr>),
}
