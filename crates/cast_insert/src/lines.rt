ghost use Rattle.std.specs.Prelude.{◌≡◌, [], ◌∷◌, IfOk, Some};
ghost use Rattle.mono_syntax.specs.ExprView.{exprs};
ghost use Rattle.mono_syntax.specs.Ty.{bool};
ghost use Rattle.mono_syntax.specs.StmtView.{block, branches, else_block};
ghost use Rattle.script_rules.specs.SourceCasts.{returned};
ghost use Rattle.cast_insert.specs.computed.Inserted.{used_each};
ghost use Rattle.cast_insert.specs.computed.Lined.{first_inserted, two_inserted, row_inserted, line_parts_inserted, line_made, line_used, simple_line, condition_of, condition, begun, guarded, unbranched, looped, if_line, line_inserted, block_inserted, branches_inserted, last_inserted};

use crate::expressions::{all_inserted, with_part};
use crate::line_uses::use_of;
use crate::parts::{Parts, Used, no_parts};
use crate::states::{Body, Branched, Condition, Guarded, Last, Line, LineUse, State};
use crate::uses::used_each;
use cast_nodes::{line_node, no_slots, part_at, put_line};
use cast_rules::TypedSite;
use known_names::{Known, Local, new_type};
use mono_list::Shared;
use mono_syntax::{
    Branch, CastBranch, CastStmt, CastStmtKind, Expr, ExprKind, Place, Stmt, StmtKind, TyKind,
};
use rule_choice::Part;
use sqlite_items::Items;
use std::alloc::{AllocError, Global};

// ---- parts

fn first_inserted(
    alloc: Global,
    known: &Known,
    local: &Local,
    e: &Expr,
    sites: Items<TypedSite>,
) -> Result<Option<Parts>, AllocError>
    ensures { IfOk result (λ x. x ≡ first_inserted known.now local.now e.now sites) }
{
    with_part(alloc, known, local, no_parts(alloc, sites), e)
}

/// What a return gives: an expression, or `None` at its word.
fn returned(
    alloc: Global,
    known: &Known,
    local: &Local,
    place: Place,
    e: &Option<Expr>,
    sites: Items<TypedSite>,
) -> Result<Option<Parts>, AllocError>
    ensures { IfOk result (λ x. x ≡ first_inserted known.now local.now (returned place e.now) sites) }
{
    if let Some(e) = e {
        return first_inserted(alloc, known, local, e, sites);
    }
    let nothing = Expr {
        kind: ExprKind::Nil(place),
    };
    first_inserted(alloc, known, local, &nothing, sites)
}

fn two_inserted(
    alloc: Global,
    known: &Known,
    local: &Local,
    a: &Expr,
    b: &Expr,
    sites: Items<TypedSite>,
) -> Result<Option<Parts>, AllocError>
    ensures { IfOk result (λ x. x ≡ two_inserted known.now local.now a.now b.now sites) }
{
    match first_inserted(alloc, known, local, a, sites)? {
        Some(first) => with_part(alloc, known, local, first, b),
        None => Ok(None),
    }
}

fn row_inserted(
    alloc: Global,
    known: &Known,
    local: &Local,
    callee: &Expr,
    es: &[Expr],
    sites: Items<TypedSite>,
) -> Result<Option<Parts>, AllocError>
    ensures { IfOk result (λ x. x ≡ row_inserted known.now local.now callee.now (exprs es.now) sites) }
{
    match first_inserted(alloc, known, local, callee, sites)? {
        Some(first) => all_inserted(alloc, known, local, first, es),
        None => Ok(None),
    }
}

/// The parts of a statement without blocks with their casts, in source order.
fn line_parts(
    alloc: Global,
    known: &Known,
    local: &Local,
    s: &Stmt,
    sites: Items<TypedSite>,
) -> Result<Option<Parts>, AllocError>
    ensures { IfOk result (λ x. x ≡ line_parts_inserted known.now local.now s.now sites) }
{
    match &s.kind {
        StmtKind::Return(place, e) => returned(alloc, known, local, *place, e, sites),
        StmtKind::Print(_, es) => {
            all_inserted(alloc, known, local, no_parts(alloc, sites), es.as_slice())
        }
        StmtKind::Assign(_, _, e) => first_inserted(alloc, known, local, e, sites),
        StmtKind::Write(o, _, e) => two_inserted(alloc, known, local, o, e, sites),
        StmtKind::Start(_, _, callee, es) => {
            row_inserted(alloc, known, local, callee, es.as_slice(), sites)
        }
        StmtKind::Plain(e) => first_inserted(alloc, known, local, e, sites),
        _ => Ok(Some(no_parts(alloc, sites))),
    }
}

// ---- statements without blocks

/// A statement whose parts were used so.
fn line_made(
    alloc: Global,
    s: &Stmt,
    parts: &[Part],
    line_use: LineUse,
    used: Used,
) -> Result<Option<Line>, AllocError>
    ensures { IfOk result (λ x. x ≡ line_made s.now parts.now line_use used) }
{
    let LineUse { asks, local } = line_use;
    let Used { exprs, sites } = used;
    let slots = put_line(alloc, s, parts, asks.as_slice(), no_slots(alloc, sites))?;
    let numbers = slots.numbers.as_slice();
    let Some(statement) = line_node(alloc, s, asks.as_slice(), exprs.as_slice(), numbers)? else {
        return Ok(None);
    };
    let sites = slots.sites;
    let state = State { local, sites };
    Ok(Some(Line { statement, state }))
}

/// A statement whose parts are done.
fn line_used(alloc: Global, local: Local, s: &Stmt, done: Parts) -> Result<Option<Line>, AllocError>
    ensures { IfOk result (λ x. x ≡ line_used local s.now done) }
{
    let Parts {
        parts,
        exprs,
        sites,
    } = done;
    let parts = parts.as_slice();
    let Some(line_use) = use_of(alloc, local, s, parts)? else {
        return Ok(None);
    };
    let used = used_each(
        alloc,
        parts,
        exprs.as_slice(),
        sites,
        line_use.asks.as_slice(),
    )?;
    line_made(alloc, s, parts, line_use, used)
}

fn simple_line(
    alloc: Global,
    known: &Known,
    state: State,
    s: &Stmt,
) -> Result<Option<Line>, AllocError>
    ensures { IfOk result (λ x. x ≡ simple_line known.now state s.now) }
{
    let State { local, sites } = state;
    match line_parts(alloc, known, &local, s, sites)? {
        Some(parts) => line_used(alloc, local, s, parts),
        None => Ok(None),
    }
}

// ---- conditions

fn condition_of(local: Local, used: Used) -> Result<Option<Condition>, AllocError>
    ensures { IfOk result (λ c. c ≡ condition_of local used) }
{
    let Used { exprs, sites } = used;
    let Some(expr) = part_at(exprs.as_slice(), 0)? else {
        return Ok(None);
    };
    let state = State { local, sites };
    Ok(Some(Condition { expr, state }))
}

/// Parts that are used at `bool`.
fn truths(alloc: Global, done: Parts) -> Result<Used, AllocError>
    ensures { IfOk result (λ u. u ≡ used_each done (bool ∷ [])) }
{
    let Parts {
        parts,
        exprs,
        sites,
    } = done;
    let mut asks = Items::new(alloc);
    asks.push(new_type(alloc, TyKind::Bool)?)?;
    used_each(
        alloc,
        parts.as_slice(),
        exprs.as_slice(),
        sites,
        asks.as_slice(),
    )
}

/// A condition, which is used at `bool`.
fn condition(
    alloc: Global,
    known: &Known,
    state: State,
    e: &Expr,
) -> Result<Option<Condition>, AllocError>
    ensures { IfOk result (λ c. c ≡ condition known.now state e.now) }
{
    let State { local, sites } = state;
    let Some(parts) = first_inserted(alloc, known, &local, e, sites)? else {
        return Ok(None);
    };
    let used = truths(alloc, parts)?;
    condition_of(local, used)
}

// ---- blocks

/// A loop from its condition and its block.
fn looped(parts: Guarded) -> Line
    ensures { Some result ≡ looped (Some parts) }
{
    let Guarded {
        condition,
        lines,
        state,
    } = parts;
    let kind = CastStmtKind::While(condition, lines);
    let statement = CastStmt { kind };
    Line { statement, state }
}

/// An `if` from its branches and its else.
fn if_line(alloc: Global, branches: Items<CastBranch>, last: Last) -> Result<Line, AllocError>
    ensures { IfOk result (λ x. Some x ≡ if_line branches (Some last)) }
{
    let Last { block, state } = last;
    let branches = Shared::new(alloc, branches)?;
    let kind = CastStmtKind::If(branches, block);
    let statement = CastStmt { kind };
    Ok(Line { statement, state })
}

fn if_inserted_end(
    alloc: Global,
    branches: Items<CastBranch>,
    last: Option<Last>,
) -> Result<Option<Line>, AllocError>
    ensures { IfOk result (λ x. x ≡ if_line branches last) }
{
    match last {
        Some(last) => Ok(Some(if_line(alloc, branches, last)?)),
        None => Ok(None),
    }
}

/// A statement with its casts, whose sites go behind those of the state.
#[cycle(lines)]
pub fn line_inserted(
    alloc: Global,
    known: &Known,
    state: State,
    s: &Stmt,
) -> Result<Option<Line>, AllocError>
    ensures { IfOk result (λ x. x ≡ line_inserted known.now state s.now) }
{
    match &s.kind {
        StmtKind::If(all, last) => {
            let Some(done) = branches_inserted(alloc, known, state, all.as_slice())? else {
                return Ok(None);
            };
            let last = last_inserted(alloc, known, done.state, last)?;
            if_inserted_end(alloc, done.branches, last)
        }
        StmtKind::While(e, body) => {
            match guarded(alloc, known, state, e, body.as_slice())? {
                Some(parts) => Ok(Some(looped(parts))),
                None => Ok(None),
            }
        }
        _ => simple_line(alloc, known, state, s),
    }
}

/// The statements of a block with their casts, in order.
#[cycle(lines)]
#[tactic(auto, using(mono_syntax::proofs::Parts::parts))]
pub fn block_inserted(
    alloc: Global,
    known: &Known,
    state: State,
    body: &[Stmt],
) -> Result<Option<Body>, AllocError>
    ensures { IfOk result (λ x. x ≡ block_inserted known.now (begun state) (block body.now)) }
{
    let mut lines = Items::new(alloc);
    let mut state = state;
    for s in body {
        let Some(line) = line_inserted(alloc, known, state, s)? else {
            return Ok(None);
        };
        lines.push(line.statement)?;
        state = line.state;
    }
    Ok(Some(Body { lines, state }))
}

/// A condition with its casts, and then the block behind it.
#[cycle(lines)]
fn guarded(
    alloc: Global,
    known: &Known,
    state: State,
    e: &Expr,
    body: &[Stmt],
) -> Result<Option<Guarded>, AllocError>
    ensures { IfOk result (λ x. x ≡ guarded (condition known.now state e.now) (λ u. block_inserted known.now (begun u) (block body.now))) }
{
    let Some(done) = condition(alloc, known, state, e)? else {
        return Ok(None);
    };
    let condition = done.expr;
    let Some(body) = block_inserted(alloc, known, done.state, body)? else {
        return Ok(None);
    };
    let lines = Shared::new(alloc, body.lines)?;
    let state = body.state;
    Ok(Some(Guarded {
        condition,
        lines,
        state,
    }))
}

/// The branches of an `if` with their casts, in order.
#[cycle(lines)]
#[tactic(auto, using(mono_syntax::proofs::Parts::parts))]
fn branches_inserted(
    alloc: Global,
    known: &Known,
    state: State,
    all: &[Branch],
) -> Result<Option<Branched>, AllocError>
    ensures { IfOk result (λ x. x ≡ branches_inserted known.now (unbranched state) (branches all.now)) }
{
    let mut done = Items::new(alloc);
    let mut state = state;
    for branch in all {
        let body = branch.body.as_slice();
        let Some(part) = guarded(alloc, known, state, &branch.condition, body)? else {
            return Ok(None);
        };
        let condition = part.condition;
        let body = part.lines;
        done.push(CastBranch { condition, body })?;
        state = part.state;
    }
    let branches = done;
    Ok(Some(Branched { branches, state }))
}

/// The block behind an else with its casts, if there is one.
#[cycle(lines)]
fn last_inserted(
    alloc: Global,
    known: &Known,
    state: State,
    last: &Option<Items<Stmt>>,
) -> Result<Option<Last>, AllocError>
    ensures { IfOk result (λ x. x ≡ last_inserted known.now state (else_block last.now)) }
{
    let Some(body) = last else {
        let block = None;
        return Ok(Some(Last { block, state }));
    };
    let Some(done) = block_inserted(alloc, known, state, body.as_slice())? else {
        return Ok(None);
    };
    let block = Some(Shared::new(alloc, done.lines)?);
    let state = done.state;
    Ok(Some(Last { block, state }))
}
