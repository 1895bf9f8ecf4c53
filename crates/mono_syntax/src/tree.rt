use crate::leaf::{Op, Place, Word};
use crate::name::Name;
use mono_list::Shared;
use sqlite_items::{Boxed, Items};
use std::marker::Model;

/// A type. Its parts are shared, so that a part of it is a type of its own with nothing copied.
#[cycle(ty)]
#[derive(Drop)]
pub struct Ty {
    pub kind: TyKind,
}

#[cycle(ty)]
#[derive(Drop)]
pub enum TyKind {
    Dyn,
    Int,
    Bool,
    Str,
    Nil,
    /// The parameters' types and the result's.
    Fun(Items<Shared<Ty>>, Shared<Ty>),
    /// The fields, in the byte order of their names.
    Obj(Items<Field>),
}

#[cycle(ty)]
#[derive(Drop)]
pub struct Field {
    pub name: Name,
    pub ty: Shared<Ty>,
}

impl Model for Ty {
    ghost use Rattle.mono_syntax.specs.Ty.{Ty, ty_code, ty_size};

    ghost Value = { Ty };

    ghost coded = { ty_code };

    ghost use Rattle.mono_syntax.specs.TyView.{ty_of};

    ghost view = { λ a. ty_of a.kind };

    ghost size = { ty_size };

    ghost use Rattle.mono_syntax.specs.TyFalls.{deep_le-ty};

    ghost size_decreases = { λ a h. deep_le-ty a.kind };
}

/// An annotation: a type as it is written.
#[cycle(ann)]
#[derive(Drop)]
pub struct Ann {
    pub place: Place,
    pub what: AnnForm,
}

#[cycle(ann)]
#[derive(Drop)]
pub enum AnnForm {
    Dyn,
    Int,
    Bool,
    Str,
    Nil,
    Class(Word),
    Fun(Items<Ann>, Boxed<Ann>),
}

impl Model for Ann {
    ghost use Rattle.mono_syntax.specs.Ann.{Ann, ann_code, ann_size};

    ghost Value = { Ann };

    ghost coded = { ann_code };

    ghost use Rattle.mono_syntax.specs.AnnView.{ann_of};

    ghost view = { λ a. ann_of a.place a.what };

    ghost size = { ann_size };

    ghost use Rattle.mono_syntax.specs.AnnFalls.{deep_le-form};

    ghost size_decreases = { λ a h. deep_le-form a.place a.what };
}

/// An expression.
#[cycle(expr)]
#[derive(Drop)]
pub struct Expr {
    pub kind: ExprKind,
}

#[cycle(expr)]
#[derive(Drop)]
pub enum ExprKind {
    Local(Word),
    Int(Place, u64),
    Text(Place, Name),
    Bool(Place, bool),
    Nil(Place),
    Neg(Place, Boxed<Expr>),
    Not(Place, Boxed<Expr>),
    Binary(Op, Place, Boxed<Expr>, Boxed<Expr>),
    And(Boxed<Expr>, Boxed<Expr>),
    Or(Boxed<Expr>, Boxed<Expr>),
    Read(Boxed<Expr>, Word),
    Call(Place, Boxed<Expr>, Items<Expr>),
    Cast(Place, Ann, Boxed<Expr>),
    Join(Place, Word),
}

impl Model for Expr {
    ghost use Rattle.mono_syntax.specs.Expr.{Expr, expr_code, expr_size};

    ghost Value = { Expr };

    ghost coded = { expr_code };

    ghost use Rattle.mono_syntax.specs.ExprView.{expr_of};

    ghost view = { λ a. expr_of a.kind };

    ghost size = { expr_size };

    ghost use Rattle.mono_syntax.specs.ExprFalls.{deep_le-expr};

    ghost size_decreases = { λ a h. deep_le-expr a.kind };
}

pub type Block = Items<Stmt>;

/// A statement.
#[cycle(stmt)]
#[derive(Drop)]
pub struct Stmt {
    pub kind: StmtKind,
}

#[cycle(stmt)]
#[derive(Drop)]
pub enum StmtKind {
    Pass,
    Return(Place, Option<Expr>),
    Print(Place, Items<Expr>),
    Assign(Word, Option<Ann>, Expr),
    Write(Expr, Word, Expr),
    Start(Word, Place, Expr, Items<Expr>),
    Plain(Expr),
    If(Items<Branch>, Option<Items<Stmt>>),
    While(Expr, Items<Stmt>),
}

#[cycle(stmt)]
#[derive(Drop)]
pub struct Branch {
    pub condition: Expr,
    pub body: Items<Stmt>,
}

impl Model for Stmt {
    ghost use Rattle.mono_syntax.specs.Stmt.{Stmt, stmt_code, stmt_size};

    ghost Value = { Stmt };

    ghost coded = { stmt_code };

    ghost use Rattle.mono_syntax.specs.StmtView.{stmt_of};

    ghost view = { λ a. stmt_of a.kind };

    ghost size = { stmt_size };

    ghost use Rattle.mono_syntax.specs.StmtFalls.{deep_le-stmt};

    ghost size_decreases = { λ a h. deep_le-stmt a.kind };
}

#[derive(Drop)]
pub struct Param {
    pub name: Word,
    pub ann: Option<Ann>,
}

#[derive(Drop)]
pub struct FuncDef {
    pub name: Word,
    pub params: Items<Param>,
    pub result: Option<Ann>,
    pub body: Block,
}

#[derive(Drop)]
pub struct FieldDef {
    pub name: Word,
    pub ann: Ann,
}

#[derive(Drop)]
pub struct ClassDef {
    pub name: Word,
    pub fields: Items<FieldDef>,
}

#[derive(Drop)]
pub enum Item {
    Class(ClassDef),
    Def(FuncDef),
    Stmt(Stmt),
}

#[derive(Drop)]
pub struct Script {
    pub items: Shared<Items<Item>>,
}
