//! Types in their order of precision, and the plain data of a script. Two types come in, and what comes out is whether
//! one is at least as precise as the other, their meet, or a type's text; the contracts say that the meet is the
//! greatest common lower bound.
#![tactic(auto)]

mod copy;
pub mod laws;
mod meeting;
mod meets;
mod precision;
mod size;
mod statics;
mod text;

pub use copy::{copy_type, same_type};
pub use meeting::meet;
pub use meets::Meets;
pub use mono_syntax::{
    Ann, AnnForm, Arg, Block, BlockNames, Branch, CastBlock, CastBranch, CastClass, CastExpr,
    CastExprKind, CastFunction, CastScript, CastStmt, CastStmtKind, ClassDef, ClassNo, Expr,
    ExprKind, Field, FieldDef, FnValue, FuncDef, FuncNo, Item, Kind, Lines, LoadFault, Name,
    NamedType, Op, Param, Place, Reason, Refusal, Scoped, Script, Site, Stmt, StmtKind, StmtList,
    Ty, TyAt, TyKind, TypeNo, Typed, TypedName, Val, Value, Word,
};
pub use precision::precise;
pub use size::Size;
pub use statics::is_static;
pub use text::{type_bytes, type_text};

#[cfg(test)]
mod tests;
