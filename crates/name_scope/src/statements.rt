ghost use Rattle.std.specs.Prelude.{◌≡◌, [], ◌∷◌, ◌++◌, flat_map, OnOk, IfOk};
ghost use Rattle.mono_syntax.specs.ExprView.{exprs};
ghost use Rattle.mono_syntax.specs.StmtView.{block, branches, else_block};
ghost use Rattle.script_rules.specs.Occurrences.{at, in_expr, in_exprs, in_target, in_stmt, in_block, in_branches, in_else};

use crate::collect::{put_ann, put_any_expr, put_expr, put_exprs, put_word};
use mono_syntax::{Ann, Branch, Expr, Stmt, StmtKind, Word};
use script_rules::{Occurrence, Role};
use sqlite_items::Items;
use std::alloc::AllocError;

/// Puts the names in a statement.
#[cycle(stmts)]
#[tactic(auto, using(crate::proofs::Turns::turns))]
pub(crate) fn put_stmt(list: &mut Items<Occurrence>, s: &Stmt) -> Result<(), AllocError>
    ensures { OnOk result (list.new ≡ list.old ++ in_stmt s.now) }
{
    match &s.kind {
        StmtKind::Pass => Ok(()),
        StmtKind::Return(_, e) => put_any_expr(list, e),
        StmtKind::Print(_, values) => put_exprs(list, values.as_slice()),
        StmtKind::Assign(word, ann, e) => {
            put_target(list, word, ann)?;
            put_expr(list, Role::Read, e)
        }
        StmtKind::Write(o, _, e) => {
            put_expr(list, Role::Read, o)?;
            put_expr(list, Role::Read, e)
        }
        StmtKind::Start(word, _, callee, arguments) => {
            put_start(list, word, callee, arguments.as_slice())
        }
        StmtKind::Plain(e) => put_expr(list, Role::Read, e),
        StmtKind::If(all, last) => {
            put_branches(list, all.as_slice())?;
            put_else(list, last)
        }
        StmtKind::While(e, body) => {
            put_expr(list, Role::Read, e)?;
            put_block(list, body.as_slice())
        }
    }
}

/// Puts the names in a block.
#[cycle(stmts)]
#[tactic(auto, using(crate::proofs::Turns::turns))]
pub(crate) fn put_block(list: &mut Items<Occurrence>, body: &[Stmt]) -> Result<(), AllocError>
    ensures { OnOk result (list.new ≡ list.old ++ in_block (block body.now)) }
{
    for s in body {
        put_stmt(list, s)?;
    }
    Ok(())
}

#[cycle(stmts)]
#[tactic(auto, using(crate::proofs::Turns::turns))]
fn put_branches(list: &mut Items<Occurrence>, all: &[Branch]) -> Result<(), AllocError>
    ensures { OnOk result (list.new ≡ list.old ++ in_branches (branches all.now)) }
{
    for branch in all {
        put_expr(list, Role::Read, &branch.condition)?;
        put_block(list, branch.body.as_slice())?;
    }
    Ok(())
}

#[cycle(stmts)]
#[tactic(auto, using(crate::proofs::Turns::turns))]
fn put_else(list: &mut Items<Occurrence>, last: &Option<Items<Stmt>>) -> Result<(), AllocError>
    ensures { OnOk result (list.new ≡ list.old ++ in_else (else_block last.now)) }
{
    match last {
        Some(body) => put_block(list, body.as_slice()),
        None => Ok(()),
    }
}

/// Puts a name that is assigned, and the names in its annotation.
fn put_target(
    list: &mut Items<Occurrence>,
    word: &Word,
    ann: &Option<Ann>,
) -> Result<(), AllocError>
    ensures { OnOk result (list.new ≡ list.old ++ in_target word.now ann.now) }
{
    match ann {
        Some(a) => {
            put_word(list, Role::Annotated, word)?;
            put_ann(list, a)
        }
        None => put_word(list, Role::Assigned, word),
    }
}

/// Puts the names of a start statement.
#[tactic(auto, using(crate::proofs::Turns::turns))]
fn put_start(
    list: &mut Items<Occurrence>,
    word: &Word,
    callee: &Expr,
    arguments: &[Expr],
) -> Result<(), AllocError>
    ensures { OnOk result (list.new ≡ list.old ++ (at Role.Started word.now ∷ in_expr Role.Read callee.now ++ in_exprs (exprs arguments.now) ++ at Role.Ended word.now ∷ [])) }
{
    put_word(list, Role::Started, word)?;
    put_expr(list, Role::Read, callee)?;
    put_exprs(list, arguments)?;
    put_word(list, Role::Ended, word)
}
