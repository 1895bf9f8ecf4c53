use crate::leaf::{Op, Site};
use crate::name::Name;
use crate::script::Scoped;
use crate::tree::Ty;
use mono_list::Shared;
use sqlite_items::Items;
use std::marker::Model;

/// An expression with its casts. A number of a site, function or class is its place in the script's list, from 0.
#[cycle(cast_expr)]
#[derive(Drop)]
pub struct CastExpr {
    pub kind: CastExprKind,
}

/// What an expression is. A site stands first; one that need not stand is an `Option`.
#[cycle(cast_expr)]
#[derive(Drop)]
pub enum CastExprKind {
    /// An integer literal.
    Int(u64),
    Text(Name),
    Bool(bool),
    Nil,
    /// A name of the block, at its Name site.
    Local(u32, Name),
    /// A function of the script by its number.
    Function(u32),
    /// Negation of an integer, at its Arithmetic site.
    Neg(u32, Shared<CastExpr>),
    Not(Shared<CastExpr>),
    /// The Operator site, where both parts are `Dyn`, the Arithmetic site, where the operator has one, and the parts.
    Binary(Op, Option<u32>, Option<u32>, Shared<CastExpr>, Shared<CastExpr>),
    And(Shared<CastExpr>, Shared<CastExpr>),
    Or(Shared<CastExpr>, Shared<CastExpr>),
    /// A read of a field, at its Member site where the object is `Dyn`.
    Read(Option<u32>, Shared<CastExpr>, Name),
    /// An object of a class, with an argument for each field in declared order.
    New(u32, Items<Shared<CastExpr>>),
    /// A call, at its Call site where the callee is `Dyn`.
    Call(Option<u32>, Shared<CastExpr>, Items<Arg>),
    /// A cast, at its Cast site.
    Fit(u32, Shared<CastExpr>),
    /// The result of a thread that this name started, at its Name site.
    Join(u32, Name),
}

/// An argument of a call, with its Argument site where one stands.
#[cycle(cast_expr)]
#[derive(Drop)]
pub struct Arg {
    pub site: Option<u32>,
    pub value: Shared<CastExpr>,
}

impl Model for CastExpr {
    ghost use Rattle.mono_syntax.specs.CastExpr.{CastExpr, cast_expr_code, cast_expr_size};

    ghost Value = { CastExpr };

    ghost coded = { cast_expr_code };

    ghost use Rattle.mono_syntax.specs.CastExprView.{cast_expr_of};

    ghost view = { λ a. cast_expr_of a.kind };

    ghost size = { cast_expr_size };

    ghost use Rattle.mono_syntax.specs.CastExprFalls.{deep_le-cast_expr};

    ghost size_decreases = { λ a h. deep_le-cast_expr a.kind };
}

/// The statements of a block, shared by all who hold the block.
pub type StmtList = Shared<Items<CastStmt>>;

/// A statement with its casts.
#[cycle(cast_stmt)]
#[derive(Drop)]
pub struct CastStmt {
    pub kind: CastStmtKind,
}

/// What a statement is.
#[cycle(cast_stmt)]
#[derive(Drop)]
pub enum CastStmtKind {
    Pass,
    /// A return, at its Return site where one stands. A bare return gives `None`.
    Return(Option<u32>, Shared<CastExpr>),
    Print(Items<Shared<CastExpr>>),
    Assign(Name, Shared<CastExpr>),
    /// A write to a field: the Member site, the Write site, the field's static type, the object, the field, the value.
    Write(Option<u32>, Option<u32>, Shared<Ty>, Shared<CastExpr>, Name, Shared<CastExpr>),
    /// The start of a thread: its name, the Call site, the callee and the arguments.
    Start(Name, Option<u32>, Shared<CastExpr>, Items<Arg>),
    Plain(Shared<CastExpr>),
    If(Shared<Items<CastBranch>>, Option<Shared<Items<CastStmt>>>),
    While(Shared<CastExpr>, Shared<Items<CastStmt>>),
}

/// A branch of an `if` or `elif`.
#[cycle(cast_stmt)]
#[derive(Drop)]
pub struct CastBranch {
    pub condition: Shared<CastExpr>,
    pub body: Shared<Items<CastStmt>>,
}

impl Model for CastStmt {
    ghost use Rattle.mono_syntax.specs.CastStmt.{CastStmt, cast_stmt_code, cast_stmt_size};

    ghost Value = { CastStmt };

    ghost coded = { cast_stmt_code };

    ghost use Rattle.mono_syntax.specs.CastStmtView.{cast_stmt_of};

    ghost view = { λ a. cast_stmt_of a.kind };

    ghost size = { cast_stmt_size };

    ghost use Rattle.mono_syntax.specs.CastStmtFalls.{deep_le-cast_stmt};

    ghost size_decreases = { λ a h. deep_le-cast_stmt a.kind };
}

/// A name with its type.
#[derive(Drop)]
pub struct NamedType {
    pub name: Name,
    pub ty: Shared<Ty>,
}

/// A block with its names: those that hold values and those that hold threads, each with its type.
#[derive(Drop)]
pub struct CastBlock {
    pub names: Items<NamedType>,
    pub threads: Items<NamedType>,
    pub body: StmtList,
}

/// A class: its field names in declared order, and its type.
#[derive(Drop)]
pub struct CastClass {
    pub params: Items<Name>,
    pub ty: Shared<Ty>,
}

/// A function: its parameters' names, its declared type, its block, and the Return site of its end where one stands.
#[derive(Drop)]
pub struct CastFunction {
    pub params: Items<Name>,
    pub ty: Shared<Ty>,
    pub block: CastBlock,
    pub falls: Option<u32>,
}

/// A script with a cast at each place where a value of one type is used at another, and its sites. Classes and
/// functions stand in source order.
#[derive(Drop)]
pub struct CastScript {
    pub scoped: Shared<Scoped>,
    pub types: Items<Shared<Ty>>,
    pub classes: Items<CastClass>,
    pub functions: Items<CastFunction>,
    pub main: CastBlock,
    pub sites: Items<Site>,
}
