//! The trees of a script, as it is written and with its casts, and the plain data that they are made of. Contracts see
//! a tree as a tree of the logic's own data, so that `≡` of two trees says that they are the same script.
#![tactic(auto)]

mod cast;
mod leaf;
mod limits;
mod name;
mod refusal;
mod same;
mod script;
mod tree;
mod value;

pub use cast::{
    Arg, CastBlock, CastBranch, CastClass, CastExpr, CastExprKind, CastFunction, CastScript,
    CastStmt, CastStmtKind, NamedType, StmtList,
};
pub use leaf::{Kind, Op, Place, Site, TyAt, Word};
pub use limits::{
    GREATEST_DEPTH, GREATEST_INTEGER, GREATEST_WEIGHT, MOST_ARGUMENTS, MOST_BLOCKS, MOST_BYTES,
    MOST_FIELDS, MOST_ITEMS, MOST_NAMES, MOST_NODES, MOST_PARAMETERS, MOST_THREADS,
};
pub use name::Name;
pub use refusal::{LoadFault, Reason, Refusal};
pub use script::{BlockNames, Scoped, Typed, TypedName};
pub use tree::{
    Ann, AnnForm, Block, Branch, ClassDef, Expr, ExprKind, Field, FieldDef, FuncDef, Item, Param,
    Script, Stmt, StmtKind, Ty, TyKind,
};
pub use value::{ClassNo, FnValue, FuncNo, Lines, TypeNo, Val, Value};
