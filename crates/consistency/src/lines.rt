ghost use Rattle.std.specs.Prelude.{◌≡◌, [], ◌∷◌, IfOk, Ok};
ghost use Rattle.std.specs.Option.{option_copied};
ghost use Rattle.mono_syntax.specs.ExprView.{exprs};
ghost use Rattle.mono_syntax.specs.Stmt.{give, plain, write, start};
ghost use Rattle.mono_syntax.specs.StmtView.{block, branches, else_block};
ghost use Rattle.mono_tree.specs.TypedPrograms.{type_of_name};
ghost use Rattle.script_rules.specs.SourceCasts.{returned};
ghost use Rattle.known_names.specs.computed.Gives.{Gives};
ghost use Rattle.consistency.specs.computed.Checked.{all_typed, no_parts};
ghost use Rattle.consistency.specs.computed.Lined.{with_thread, lined, used_line, any_line, first_typed, two_typed, row_typed, return_used, assign_used, write_used, start_used, condition, line_typed, block_typed, branches_typed, else_typed};
ghost use Rattle.rule_choice.specs.computed.Steps.{and_then};

use crate::expressions::{all_typed, with_part};
use crate::parts::{Parts, no_parts};
use crate::trace::{Trace, with_expr};
use known_names::{Known, Local, new_type};
use mono_list::Shared;
use mono_syntax::{
    Branch, Expr, LoadFault, NamedType, Place, Reason, Stmt, StmtKind, Ty, TyKind, Word,
};
use rule_choice::{Part, first_apart, first_member, first_rule, refused};
use sqlite_items::Items;
use std::alloc::{AllocError, Global};

/// What may be named behind the statements so far, and the types of all expressions so far.
#[derive(Drop)]
pub struct State {
    pub local: Local,
    pub trace: Trace,
}

// ---- uses

/// What is behind a statement whose parts are used at these types, unless one can't be.
fn used_line(
    alloc: Global,
    asks: &[Shared<Ty>],
    local: Local,
    parts: Parts,
) -> Result<State, LoadFault>
    ensures { Gives result (used_line asks.now local parts) }
{
    let Parts { parts, trace } = parts;
    match first_apart(alloc, parts.as_slice(), asks)? {
        Some(place) => Err(refused(place, Reason::Inconsistent)),
        None => Ok(State { local, trace }),
    }
}

/// A single part, used at a type.
fn one_used(
    alloc: Global,
    asked: Shared<Ty>,
    local: Local,
    parts: Parts,
) -> Result<State, LoadFault>
    ensures { Gives result (used_line (asked ∷ []) local parts) }
{
    let mut asks = Items::new(alloc);
    asks.push(asked)?;
    used_line(alloc, asks.as_slice(), local, parts)
}

/// The same type, if there is one, for another owner.
pub fn shared_type(ty: &Option<Shared<Ty>>) -> Result<Option<Shared<Ty>>, AllocError>
    ensures { IfOk result (λ copy. copy ≡ ty.now) }
{
    match ty {
        Some(ty) => Ok(Some(ty.share()?)),
        None => Ok(None),
    }
}

fn found_type(ty: Option<&Shared<Ty>>) -> Result<Option<Shared<Ty>>, AllocError>
    ensures { IfOk result (λ copy. copy ≡ option_copied ty.entry) }
{
    match ty {
        Some(ty) => Ok(Some(ty.share()?)),
        None => Ok(None),
    }
}

// ---- parts

fn first_typed(
    alloc: Global,
    known: &Known,
    local: &Local,
    e: &Expr,
    trace: Trace,
) -> Result<Parts, LoadFault>
    ensures { Gives result (first_typed known.now (record { local = local.now; trace = trace }) e.now) }
{
    with_part(alloc, known, local, no_parts(alloc, trace), e)
}

/// What a return gives: an expression, or `None` at its word.
fn returned(
    alloc: Global,
    known: &Known,
    local: &Local,
    place: Place,
    e: &Option<Expr>,
    trace: Trace,
) -> Result<Parts, LoadFault>
    ensures { Gives result (first_typed known.now (record { local = local.now; trace = trace }) (returned place e.now)) }
{
    if let Some(e) = e {
        return first_typed(alloc, known, local, e, trace);
    }
    let ty = new_type(alloc, TyKind::Nil)?;
    let trace = with_expr(trace, &ty)?;
    let mut parts = Items::new(alloc);
    parts.push(Part { place, ty })?;
    Ok(Parts { parts, trace })
}

// ---- statements without blocks

fn return_used(
    alloc: Global,
    result_type: Option<Shared<Ty>>,
    place: Place,
    local: Local,
    parts: Parts,
) -> Result<State, LoadFault>
    ensures { Gives result (return_used result_type place local parts) }
{
    match result_type {
        Some(ty) => one_used(alloc, ty, local, parts),
        None => Err(refused(place, Reason::Syntax)),
    }
}

fn return_typed(
    alloc: Global,
    known: &Known,
    state: State,
    place: Place,
    e: &Option<Expr>,
) -> Result<State, LoadFault>
    ensures { Gives result (line_typed known.now state (give place e.now)) }
{
    let State { local, trace } = state;
    let parts = returned(alloc, known, &local, place, e, trace)?;
    let result_type = shared_type(&local.result)?;
    return_used(alloc, result_type, place, local, parts)
}

fn print_typed(alloc: Global, known: &Known, state: State, es: &[Expr]) -> Result<State, LoadFault>
    ensures { Gives result (any_line state.local (all_typed known.now state.local (no_parts state.trace) (exprs es.now))) }
{
    let State { local, trace } = state;
    let parts = all_typed(alloc, known, &local, no_parts(alloc, trace), es)?;
    let trace = parts.trace;
    Ok(State { local, trace })
}

fn plain_typed(alloc: Global, known: &Known, state: State, e: &Expr) -> Result<State, LoadFault>
    ensures { Gives result (line_typed known.now state (plain e.now)) }
{
    let State { local, trace } = state;
    let parts = first_typed(alloc, known, &local, e, trace)?;
    let trace = parts.trace;
    Ok(State { local, trace })
}

fn assign_used(
    alloc: Global,
    ty: Option<Shared<Ty>>,
    word: &Word,
    local: Local,
    parts: Parts,
) -> Result<State, LoadFault>
    ensures { Gives result (assign_used ty word.now local parts) }
{
    match ty {
        Some(ty) => one_used(alloc, ty, local, parts),
        None => Err(refused(word.place, Reason::UnknownName)),
    }
}

fn assign_typed(
    alloc: Global,
    known: &Known,
    state: State,
    word: &Word,
    e: &Expr,
) -> Result<State, LoadFault>
    ensures { Gives result (and_then (first_typed known.now state e.now) (λ x. assign_used (type_of_name state.local.values word.now.text) word.now state.local x)) }
{
    let State { local, trace } = state;
    let parts = first_typed(alloc, known, &local, e, trace)?;
    let ty = found_type(local.values.get(&word.text))?;
    assign_used(alloc, ty, word, local, parts)
}

fn write_used(
    alloc: Global,
    ty: Option<Shared<Ty>>,
    word: &Word,
    local: Local,
    parts: Parts,
) -> Result<State, LoadFault>
    ensures { Gives result (write_used ty word.now local parts) }
{
    let Some(ty) = ty else {
        return Err(refused(word.place, Reason::NoField));
    };
    let mut asks = Items::new(alloc);
    asks.push(new_type(alloc, TyKind::Dyn)?)?;
    asks.push(ty)?;
    used_line(alloc, asks.as_slice(), local, parts)
}

fn write_typed(
    alloc: Global,
    known: &Known,
    state: State,
    o: &Expr,
    word: &Word,
    e: &Expr,
) -> Result<State, LoadFault>
    ensures { Gives result (line_typed known.now state (write o.now word.now e.now)) }
{
    let State { local, trace } = state;
    let first = first_typed(alloc, known, &local, o, trace)?;
    let parts = with_part(alloc, known, &local, first, e)?;
    let ty = first_member(alloc, parts.parts.as_slice(), &word.text)?;
    write_used(alloc, ty, word, local, parts)
}

fn with_thread(
    alloc: Global,
    local: Local,
    word: &Word,
    ty: Shared<Ty>,
) -> Result<Local, AllocError>
    ensures { IfOk result (λ l. l ≡ with_thread local word.now.text ty) }
{
    let Local {
        values,
        threads,
        result,
    } = local;
    let name = word.text.share()?;
    let threads = threads.push(alloc, NamedType { name, ty })?;
    Ok(Local {
        values,
        threads,
        result,
    })
}

fn start_used(
    alloc: Global,
    word: &Word,
    bracket: Place,
    local: Local,
    parts: Parts,
) -> Result<State, LoadFault>
    ensures { Gives result (start_used (type_of_name local.threads word.now.text) word.now bracket local parts) }
{
    if local.threads.get(&word.text).is_some() {
        return Err(refused(word.place, Reason::Twice));
    }
    let rule = first_rule(alloc, bracket, parts.parts.as_slice())?;
    let local = with_thread(alloc, local, word, rule.gives)?;
    used_line(alloc, rule.asks.as_slice(), local, parts)
}

fn start_typed(
    alloc: Global,
    known: &Known,
    state: State,
    word: &Word,
    bracket: Place,
    callee: &Expr,
    es: &[Expr],
) -> Result<State, LoadFault>
    ensures { Gives result (line_typed known.now state (start word.now bracket callee.now (exprs es.now))) }
{
    let State { local, trace } = state;
    let first = first_typed(alloc, known, &local, callee, trace)?;
    let parts = all_typed(alloc, known, &local, first, es)?;
    start_used(alloc, word, bracket, local, parts)
}

// ---- blocks

/// A condition, which is used at `bool`.
fn condition(alloc: Global, known: &Known, state: State, e: &Expr) -> Result<State, LoadFault>
    ensures { Gives result (condition known.now state e.now) }
{
    let State { local, trace } = state;
    let parts = first_typed(alloc, known, &local, e, trace)?;
    let asked = new_type(alloc, TyKind::Bool)?;
    one_used(alloc, asked, local, parts)
}

/// A statement: what may be named behind it, and the types of its expressions behind those so far.
#[cycle(lines)]
pub fn line_typed(alloc: Global, known: &Known, state: State, s: &Stmt) -> Result<State, LoadFault>
    ensures { Gives result (line_typed known.now state s.now) }
{
    match &s.kind {
        StmtKind::Pass => Ok(state),
        StmtKind::Return(place, e) => return_typed(alloc, known, state, *place, e),
        StmtKind::Print(_, es) => print_typed(alloc, known, state, es.as_slice()),
        StmtKind::Assign(word, _, e) => assign_typed(alloc, known, state, word, e),
        StmtKind::Write(o, word, e) => write_typed(alloc, known, state, o, word, e),
        StmtKind::Start(word, bracket, callee, es) => {
            start_typed(alloc, known, state, word, *bracket, callee, es.as_slice())
        }
        StmtKind::Plain(e) => plain_typed(alloc, known, state, e),
        StmtKind::If(all, last) => {
            let state = branches_typed(alloc, known, state, all.as_slice())?;
            else_typed(alloc, known, state, last)
        }
        StmtKind::While(e, body) => {
            let state = condition(alloc, known, state, e)?;
            block_typed(alloc, known, state, body.as_slice())
        }
    }
}

/// The statements of a block, in order.
#[cycle(lines)]
#[tactic(auto, using(mono_syntax::proofs::Parts::parts))]
pub fn block_typed(
    alloc: Global,
    known: &Known,
    state: State,
    body: &[Stmt],
) -> Result<State, LoadFault>
    ensures { Gives result (block_typed known.now state (block body.now)) }
{
    let mut state = state;
    for s in body {
        state = line_typed(alloc, known, state, s)?;
    }
    Ok(state)
}

/// The branches of an `if`, in order.
#[cycle(lines)]
#[tactic(auto, using(mono_syntax::proofs::Parts::parts))]
fn branches_typed(
    alloc: Global,
    known: &Known,
    state: State,
    all: &[Branch],
) -> Result<State, LoadFault>
    ensures { Gives result (branches_typed known.now state (branches all.now)) }
{
    let mut state = state;
    for branch in all {
        state = condition(alloc, known, state, &branch.condition)?;
        state = block_typed(alloc, known, state, branch.body.as_slice())?;
    }
    Ok(state)
}

/// The block behind an else, if there is one.
#[cycle(lines)]
fn else_typed(
    alloc: Global,
    known: &Known,
    state: State,
    last: &Option<Items<Stmt>>,
) -> Result<State, LoadFault>
    ensures { Gives result (else_typed known.now state (else_block last.now)) }
{
    match last {
        Some(body) => block_typed(alloc, known, state, body.as_slice()),
        None => Ok(state),
    }
}
