ghost use Rattle.std.specs.Prelude.{◌≡◌, ◌++◌, length, None};
ghost use Rattle.mono_syntax.specs.Limits.{most_arguments};
ghost use Rattle.mono_syntax.specs.declared.refusal.Reason.TheVariants.{TooManyArguments};
ghost use Rattle.mono_syntax.specs.ExprView.{exprs};
ghost use Rattle.mono_syntax.specs.StmtView.{block, branches, else_block};
ghost use Rattle.class_types.specs.computed.FoundFaults.{first_from, found, count_fault, part_faults};
ghost use Rattle.class_types.specs.computed.Made.{look};
ghost use Rattle.script_rules.specs.SourceParts.{expr_parts, exprs_parts, any_ann, any_expr, stmt_parts, block_parts, branch_parts, else_parts};

use crate::faults::{Sizes, ann_faults, count_fault};
use mono_syntax::{
    Ann, Branch, Expr, ExprKind, MOST_ARGUMENTS, Place, Reason, Refusal, Stmt, StmtKind,
};
use sqlite_items::Items;

/// A call, a print or a start has too many arguments.
fn many_arguments(so_far: Option<Refusal>, place: Place, list: &[Expr]) -> Option<Refusal>
    ensures { result ≡ first_from so_far (count_fault TooManyArguments most_arguments (record { place = place; count = length list.now })) }
{
    count_fault(
        so_far,
        Reason::TooManyArguments,
        MOST_ARGUMENTS,
        place,
        list.len(),
    )
}

/// The faults in an expression: of the types of its casts, and of its lists of arguments.
#[cycle(exprs)]
#[tactic(auto, using(crate::proofs::WalkLaws::walk_steps))]
fn expr_faults(sizes: &Sizes, so_far: Option<Refusal>, e: &Expr) -> Option<Refusal>
    ensures { result ≡ found (part_faults (look sizes.now.names sizes.now.own.items None)) so_far (expr_parts e.now) }
{
    match &e.kind {
        ExprKind::Neg(_, a) | ExprKind::Not(_, a) | ExprKind::Read(a, _) => {
            expr_faults(sizes, so_far, a.get())
        }
        ExprKind::Binary(_, _, a, b) | ExprKind::And(a, b) | ExprKind::Or(a, b) => {
            let so_far = expr_faults(sizes, so_far, a.get());
            expr_faults(sizes, so_far, b.get())
        }
        ExprKind::Call(place, f, list) => {
            let so_far = many_arguments(so_far, *place, list.as_slice());
            let so_far = expr_faults(sizes, so_far, f.get());
            exprs_faults(sizes, so_far, list.as_slice())
        }
        ExprKind::Cast(_, ann, a) => {
            let so_far = ann_faults(sizes, so_far, ann);
            expr_faults(sizes, so_far, a.get())
        }
        _ => so_far,
    }
}

#[cycle(exprs)]
#[tactic(auto, using(mono_syntax::proofs::Parts::parts))]
fn exprs_faults(sizes: &Sizes, so_far: Option<Refusal>, list: &[Expr]) -> Option<Refusal>
    ensures { result ≡ found (part_faults (look sizes.now.names sizes.now.own.items None)) so_far (exprs_parts (exprs list.now)) }
{
    let mut so_far = so_far;
    for e in list {
        so_far = expr_faults(sizes, so_far, e);
    }
    so_far
}

pub fn any_ann_faults(sizes: &Sizes, so_far: Option<Refusal>, ann: &Option<Ann>) -> Option<Refusal>
    ensures { result ≡ found (part_faults (look sizes.now.names sizes.now.own.items None)) so_far (any_ann ann.now) }
{
    match ann {
        Some(ann) => ann_faults(sizes, so_far, ann),
        None => so_far,
    }
}

fn any_expr_faults(sizes: &Sizes, so_far: Option<Refusal>, e: &Option<Expr>) -> Option<Refusal>
    ensures { result ≡ found (part_faults (look sizes.now.names sizes.now.own.items None)) so_far (any_expr e.now) }
{
    match e {
        Some(e) => expr_faults(sizes, so_far, e),
        None => so_far,
    }
}

/// The faults in a statement, those of the blocks in it too.
#[cycle(stmts)]
#[tactic(auto, using(crate::proofs::WalkLaws::walk_steps))]
pub fn stmt_faults(sizes: &Sizes, so_far: Option<Refusal>, s: &Stmt) -> Option<Refusal>
    ensures { result ≡ found (part_faults (look sizes.now.names sizes.now.own.items None)) so_far (stmt_parts s.now) }
{
    match &s.kind {
        StmtKind::Pass => so_far,
        StmtKind::Return(_, e) => any_expr_faults(sizes, so_far, e),
        StmtKind::Print(place, list) => {
            let so_far = many_arguments(so_far, *place, list.as_slice());
            exprs_faults(sizes, so_far, list.as_slice())
        }
        StmtKind::Assign(_, ann, e) => {
            let so_far = any_ann_faults(sizes, so_far, ann);
            expr_faults(sizes, so_far, e)
        }
        StmtKind::Write(o, _, e) => {
            let so_far = expr_faults(sizes, so_far, o);
            expr_faults(sizes, so_far, e)
        }
        StmtKind::Start(_, place, f, list) => {
            let so_far = many_arguments(so_far, *place, list.as_slice());
            let so_far = expr_faults(sizes, so_far, f);
            exprs_faults(sizes, so_far, list.as_slice())
        }
        StmtKind::Plain(e) => expr_faults(sizes, so_far, e),
        StmtKind::If(list, last) => {
            let so_far = branches_faults(sizes, so_far, list.as_slice());
            else_faults(sizes, so_far, last)
        }
        StmtKind::While(e, body) => {
            let so_far = expr_faults(sizes, so_far, e);
            block_faults(sizes, so_far, body.as_slice())
        }
    }
}

/// The faults in a block.
#[cycle(stmts)]
#[tactic(auto, using(mono_syntax::proofs::Parts::parts))]
fn block_faults(sizes: &Sizes, so_far: Option<Refusal>, list: &[Stmt]) -> Option<Refusal>
    ensures { result ≡ found (part_faults (look sizes.now.names sizes.now.own.items None)) so_far (block_parts (block list.now)) }
{
    let mut so_far = so_far;
    for s in list {
        so_far = stmt_faults(sizes, so_far, s);
    }
    so_far
}

#[cycle(stmts)]
#[tactic(auto, using(crate::proofs::WalkLaws::walk_steps))]
fn branch_faults(sizes: &Sizes, so_far: Option<Refusal>, branch: &Branch) -> Option<Refusal>
    ensures { result ≡ found (part_faults (look sizes.now.names sizes.now.own.items None)) so_far (expr_parts branch.now.condition ++ block_parts (block branch.now.body)) }
{
    let so_far = expr_faults(sizes, so_far, &branch.condition);
    block_faults(sizes, so_far, branch.body.as_slice())
}

#[cycle(stmts)]
#[tactic(auto, using(mono_syntax::proofs::Parts::parts))]
fn branches_faults(sizes: &Sizes, so_far: Option<Refusal>, list: &[Branch]) -> Option<Refusal>
    ensures { result ≡ found (part_faults (look sizes.now.names sizes.now.own.items None)) so_far (branch_parts (branches list.now)) }
{
    let mut so_far = so_far;
    for branch in list {
        so_far = branch_faults(sizes, so_far, branch);
    }
    so_far
}

#[cycle(stmts)]
fn else_faults(
    sizes: &Sizes,
    so_far: Option<Refusal>,
    last: &Option<Items<Stmt>>,
) -> Option<Refusal>
    ensures { result ≡ found (part_faults (look sizes.now.names sizes.now.own.items None)) so_far (else_parts (else_block last.now)) }
{
    match last {
        Some(body) => block_faults(sizes, so_far, body.as_slice()),
        None => so_far,
    }
}
