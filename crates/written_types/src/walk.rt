ghost use Rattle.std.specs.Prelude.{◌≡◌, ◌++◌, IfOk};
ghost use Rattle.mono_syntax.specs.ExprView.{exprs};
ghost use Rattle.mono_syntax.specs.StmtView.{block, branches, else_block};
ghost use Rattle.script_rules.specs.SourceParts.{expr_parts, exprs_parts, any_expr, stmt_parts, block_parts, branch_parts, else_parts};
ghost use Rattle.written_types.specs.computed.TypesOnto.{types_onto};

use crate::annotations::{ann_type, any_ann_type};
use known_names::NamedTypes;
use mono_list::Shared;
use mono_syntax::{Branch, Expr, ExprKind, Stmt, StmtKind, Ty};
use sqlite_items::Items;
use std::alloc::{AllocError, Global};

/// The types of the casts in an expression, by the first token of each.
#[cycle(exprs)]
#[tactic(auto, using(crate::proofs::OntoLaws::onto_steps))]
fn expr_types(
    alloc: Global,
    classes: &NamedTypes,
    done: Items<Shared<Ty>>,
    e: &Expr,
) -> Result<Items<Shared<Ty>>, AllocError>
    ensures { IfOk result (λ r. r ≡ types_onto classes.now done (expr_parts e.now)) }
{
    match &e.kind {
        ExprKind::Neg(_, a) | ExprKind::Not(_, a) | ExprKind::Read(a, _) => {
            expr_types(alloc, classes, done, a.get())
        }
        ExprKind::Binary(_, _, a, b) | ExprKind::And(a, b) | ExprKind::Or(a, b) => {
            let done = expr_types(alloc, classes, done, a.get())?;
            expr_types(alloc, classes, done, b.get())
        }
        ExprKind::Call(_, f, list) => {
            let done = expr_types(alloc, classes, done, f.get())?;
            exprs_types(alloc, classes, done, list.as_slice())
        }
        ExprKind::Cast(_, ann, a) => {
            let done = ann_type(alloc, classes, done, ann)?;
            expr_types(alloc, classes, done, a.get())
        }
        _ => Ok(done),
    }
}

#[cycle(exprs)]
#[tactic(auto, using(mono_syntax::proofs::Parts::parts))]
fn exprs_types(
    alloc: Global,
    classes: &NamedTypes,
    done: Items<Shared<Ty>>,
    list: &[Expr],
) -> Result<Items<Shared<Ty>>, AllocError>
    ensures { IfOk result (λ r. r ≡ types_onto classes.now done (exprs_parts (exprs list.now))) }
{
    let mut done = done;
    for e in list {
        done = expr_types(alloc, classes, done, e)?;
    }
    Ok(done)
}

fn any_expr_types(
    alloc: Global,
    classes: &NamedTypes,
    done: Items<Shared<Ty>>,
    e: &Option<Expr>,
) -> Result<Items<Shared<Ty>>, AllocError>
    ensures { IfOk result (λ r. r ≡ types_onto classes.now done (any_expr e.now)) }
{
    match e {
        Some(e) => expr_types(alloc, classes, done, e),
        None => Ok(done),
    }
}

/// The types that a statement writes, those of the blocks in it too.
#[cycle(stmts)]
#[tactic(auto, using(crate::proofs::OntoLaws::onto_steps))]
pub fn stmt_types(
    alloc: Global,
    classes: &NamedTypes,
    done: Items<Shared<Ty>>,
    s: &Stmt,
) -> Result<Items<Shared<Ty>>, AllocError>
    ensures { IfOk result (λ r. r ≡ types_onto classes.now done (stmt_parts s.now)) }
{
    match &s.kind {
        StmtKind::Pass => Ok(done),
        StmtKind::Return(_, e) => any_expr_types(alloc, classes, done, e),
        StmtKind::Print(_, list) => exprs_types(alloc, classes, done, list.as_slice()),
        StmtKind::Assign(_, ann, e) => {
            let done = any_ann_type(alloc, classes, done, ann)?;
            expr_types(alloc, classes, done, e)
        }
        StmtKind::Write(o, _, e) => {
            let done = expr_types(alloc, classes, done, o)?;
            expr_types(alloc, classes, done, e)
        }
        StmtKind::Start(_, _, f, list) => {
            let done = expr_types(alloc, classes, done, f)?;
            exprs_types(alloc, classes, done, list.as_slice())
        }
        StmtKind::Plain(e) => expr_types(alloc, classes, done, e),
        StmtKind::If(list, last) => {
            let done = branches_types(alloc, classes, done, list.as_slice())?;
            else_types(alloc, classes, done, last)
        }
        StmtKind::While(e, body) => {
            let done = expr_types(alloc, classes, done, e)?;
            block_types(alloc, classes, done, body.as_slice())
        }
    }
}

#[cycle(stmts)]
#[tactic(auto, using(mono_syntax::proofs::Parts::parts))]
fn block_types(
    alloc: Global,
    classes: &NamedTypes,
    done: Items<Shared<Ty>>,
    list: &[Stmt],
) -> Result<Items<Shared<Ty>>, AllocError>
    ensures { IfOk result (λ r. r ≡ types_onto classes.now done (block_parts (block list.now))) }
{
    let mut done = done;
    for s in list {
        done = stmt_types(alloc, classes, done, s)?;
    }
    Ok(done)
}

/// The types that a branch writes, those of its condition first.
#[cycle(stmts)]
#[tactic(auto, using(crate::proofs::OntoLaws::onto_steps))]
fn branch_types(
    alloc: Global,
    classes: &NamedTypes,
    done: Items<Shared<Ty>>,
    branch: &Branch,
) -> Result<Items<Shared<Ty>>, AllocError>
    ensures { IfOk result (λ r. r ≡ types_onto classes.now done (expr_parts branch.now.condition ++ block_parts (block branch.now.body))) }
{
    let done = expr_types(alloc, classes, done, &branch.condition)?;
    block_types(alloc, classes, done, branch.body.as_slice())
}

#[cycle(stmts)]
#[tactic(auto, using(mono_syntax::proofs::Parts::parts))]
fn branches_types(
    alloc: Global,
    classes: &NamedTypes,
    done: Items<Shared<Ty>>,
    list: &[Branch],
) -> Result<Items<Shared<Ty>>, AllocError>
    ensures { IfOk result (λ r. r ≡ types_onto classes.now done (branch_parts (branches list.now))) }
{
    let mut done = done;
    for branch in list {
        done = branch_types(alloc, classes, done, branch)?;
    }
    Ok(done)
}

#[cycle(stmts)]
fn else_types(
    alloc: Global,
    classes: &NamedTypes,
    done: Items<Shared<Ty>>,
    last: &Option<Items<Stmt>>,
) -> Result<Items<Shared<Ty>>, AllocError>
    ensures { IfOk result (λ r. r ≡ types_onto classes.now done (else_parts (else_block last.now))) }
{
    match last {
        Some(body) => block_types(alloc, classes, done, body.as_slice()),
        None => Ok(done),
    }
}
