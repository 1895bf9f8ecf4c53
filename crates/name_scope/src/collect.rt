ghost use Rattle.std.specs.Prelude.{◌≡◌, [], ◌∷◌, ◌++◌, flat_map, OnOk, IfOk};
ghost use Rattle.mono_syntax.specs.AnnView.{anns};
ghost use Rattle.mono_syntax.specs.ExprView.{exprs};
ghost use Rattle.mono_syntax.specs.StmtView.{block, branches, else_block};
ghost use Rattle.script_rules.specs.Occurrences.{at, in_ann, in_anns, in_any_ann, in_expr, in_exprs, in_any_expr, in_target, in_stmt, in_block, in_branches, in_else, in_param};

use mono_syntax::{Ann, AnnForm, Branch, Expr, ExprKind, Param, Stmt, StmtKind, Word};
use script_rules::{Occurrence, Role};
use sqlite_items::Items;
use std::alloc::AllocError;

pub(crate) fn put_word(
    list: &mut Items<Occurrence>,
    role: Role,
    word: &Word,
) -> Result<(), AllocError>
    ensures { OnOk result (list.new ≡ list.old ++ at role word.now ∷ []) }
{
    let o = Occurrence::new(role, word)?;
    list.push(o)
}

/// Puts the names in a type.
#[cycle(anns)]
#[tactic(auto, using(crate::proofs::Turns::turns))]
pub(crate) fn put_ann(list: &mut Items<Occurrence>, a: &Ann) -> Result<(), AllocError>
    ensures { OnOk result (list.new ≡ list.old ++ in_ann a.now) }
{
    match &a.what {
        AnnForm::Class(word) => put_word(list, Role::Typed, word),
        AnnForm::Fun(params, out) => {
            put_anns(list, params.as_slice())?;
            put_ann(list, out.get())
        }
        AnnForm::Dyn => Ok(()),
        AnnForm::Int => Ok(()),
        AnnForm::Bool => Ok(()),
        AnnForm::Str => Ok(()),
        AnnForm::Nil => Ok(()),
    }
}

#[cycle(anns)]
#[tactic(auto, using(crate::proofs::Turns::turns))]
fn put_anns(list: &mut Items<Occurrence>, all: &[Ann]) -> Result<(), AllocError>
    ensures { OnOk result (list.new ≡ list.old ++ in_anns (anns all.now)) }
{
    for a in all {
        put_ann(list, a)?;
    }
    Ok(())
}

#[tactic(auto, using(crate::proofs::Turns::turns))]
pub(crate) fn put_any_ann(list: &mut Items<Occurrence>, a: &Option<Ann>) -> Result<(), AllocError>
    ensures { OnOk result (list.new ≡ list.old ++ in_any_ann a.now) }
{
    match a {
        Some(a) => put_ann(list, a),
        None => Ok(()),
    }
}

/// Puts the names in an expression, which does what the role says if it is a name itself.
#[cycle(exprs)]
#[tactic(auto, using(crate::proofs::Turns::turns))]
pub(crate) fn put_expr(list: &mut Items<Occurrence>, role: Role, e: &Expr) -> Result<(), AllocError>
    ensures { OnOk result (list.new ≡ list.old ++ in_expr role e.now) }
{
    match &e.kind {
        ExprKind::Local(word) => put_word(list, role, word),
        ExprKind::Int(_, _) => Ok(()),
        ExprKind::Text(_, _) => Ok(()),
        ExprKind::Bool(_, _) => Ok(()),
        ExprKind::Nil(_) => Ok(()),
        ExprKind::Neg(_, a) => put_expr(list, Role::Read, a.get()),
        ExprKind::Not(_, a) => put_expr(list, Role::Read, a.get()),
        ExprKind::Binary(_, _, a, b) => put_pair(list, a.get(), b.get()),
        ExprKind::And(a, b) => put_pair(list, a.get(), b.get()),
        ExprKind::Or(a, b) => put_pair(list, a.get(), b.get()),
        ExprKind::Read(a, _) => put_expr(list, Role::Read, a.get()),
        ExprKind::Call(_, callee, arguments) => {
            put_expr(list, Role::Called, callee.get())?;
            put_exprs(list, arguments.as_slice())
        }
        ExprKind::Cast(_, target, a) => {
            put_ann(list, target)?;
            put_expr(list, Role::Read, a.get())
        }
        ExprKind::Join(_, word) => put_word(list, Role::Joined, word),
    }
}

#[cycle(exprs)]
#[tactic(auto, using(crate::proofs::Turns::turns))]
fn put_pair(list: &mut Items<Occurrence>, a: &Expr, b: &Expr) -> Result<(), AllocError>
    ensures { OnOk result (list.new ≡ list.old ++ (in_expr Role.Read a.now ++ in_expr Role.Read b.now)) }
{
    put_expr(list, Role::Read, a)?;
    put_expr(list, Role::Read, b)
}

#[cycle(exprs)]
#[tactic(auto, using(crate::proofs::Turns::turns))]
pub(crate) fn put_exprs(list: &mut Items<Occurrence>, all: &[Expr]) -> Result<(), AllocError>
    ensures { OnOk result (list.new ≡ list.old ++ in_exprs (exprs all.now)) }
{
    for e in all {
        put_expr(list, Role::Read, e)?;
    }
    Ok(())
}

pub(crate) fn put_any_expr(list: &mut Items<Occurrence>, e: &Option<Expr>) -> Result<(), AllocError>
    ensures { OnOk result (list.new ≡ list.old ++ in_any_expr e.now) }
{
    match e {
        Some(e) => put_expr(list, Role::Read, e),
        None => Ok(()),
    }
}
