use cast_rules::TypedSite;
use known_names::Local;
use mono_list::{Shared, Stack};
use mono_syntax::{CastBranch, CastExpr, CastFunction, CastStmt, StmtList, Ty};
use sqlite_items::Items;

/// What is known in a block behind the statements so far, and all sites so far.
#[derive(Drop)]
pub struct State {
    pub local: Local,
    pub sites: Items<TypedSite>,
}

/// The types at which a statement uses its parts, and what is known behind it.
#[derive(Drop)]
pub struct LineUse {
    pub asks: Items<Shared<Ty>>,
    pub local: Local,
}

/// A statement with its casts, and the state behind it.
#[derive(Drop)]
pub struct Line {
    pub statement: CastStmt,
    pub state: State,
}

/// Statements with their casts, and the state behind them.
#[derive(Drop)]
pub struct Body {
    pub lines: Items<CastStmt>,
    pub state: State,
}

/// A condition with its casts, and the state behind it.
#[derive(Drop)]
pub struct Condition {
    pub expr: Shared<CastExpr>,
    pub state: State,
}

/// A condition and the block behind it, with their casts, and the state behind them.
#[derive(Drop)]
pub struct Guarded {
    pub condition: Shared<CastExpr>,
    pub lines: StmtList,
    pub state: State,
}

/// Branches with their casts, and the state behind them.
#[derive(Drop)]
pub struct Branched {
    pub branches: Items<CastBranch>,
    pub state: State,
}

/// The block behind an else, if there is one, with its casts, and the state behind it.
#[derive(Drop)]
pub struct Last {
    pub block: Option<StmtList>,
    pub state: State,
}

/// A function with its casts, and all sites so far.
#[derive(Drop)]
pub struct Function {
    pub function: CastFunction,
    pub sites: Items<TypedSite>,
}

/// The functions so far, the main block so far with the state behind it, and what the bodies of the functions to come may name.
#[derive(Drop)]
pub struct Made {
    pub functions: Items<CastFunction>,
    pub lines: Items<CastStmt>,
    pub state: State,
    pub bodies: Stack<Local>,
}
