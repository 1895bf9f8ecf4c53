ghost use Rattle.std.specs.Prelude.{◌≡◌, [], ◌∷◌, ◌++◌, ◌+◌, ◌<◌, ◌^◌, IfOk, OnOk, slice_get, not};
ghost use Rattle.mono_syntax.specs.CastExprView.{args, cast_exprs, cast_exprs_list};
ghost use Rattle.mono_syntax.specs.CastStmt.{print, start, if_any, give, loop};
ghost use Rattle.mono_syntax.specs.CastStmtView.{cast_block, cast_branches, cast_else_block};
ghost use Rattle.mono_tree.specs.CastScripts.{values_of, sites_of, target_of};
ghost use Rattle.cast_machine.specs.Maps.{lookup};
ghost use Rattle.cast_machine.specs.Rows.{goes, fails, blames, does, puts, evals, block_at, leaving, otherwise_work, branch_work, block_of, branch_turn, loop_turn, statement, statement_at, store, forget, on_bool, short, name_at, function_at, handle_at, literal, eval, errs, operates, binary_row, neg_row, not_row};

use calculus_data::{
    blames, copy_val, fails, goes, negated, operate, push_leaving, puts, share_otherwise,
};
use cast_machine::{Change, End, Frame, Operated, Outcome, State, Work};
use mono_list::{Shared, Stack};
use mono_syntax::{
    Arg, CastBranch, CastExpr, CastExprKind, CastScript, CastStmt, CastStmtKind, GREATEST_INTEGER,
    Name, Op, StmtList, Val,
};
use sqlite_items::Items;
use std::alloc::{AllocError, Global};

/// The evaluation of the expressions is put on top, that of the first uppermost.
fn push_evals(work: &mut Stack<Work>, exprs: &[Shared<CastExpr>]) -> Result<(), AllocError>
    ensures { OnOk result (work.new ≡ evals exprs.now ++ work.old) }
{
    let mut left = exprs.len();
    while left > 0 {
        left -= 1;
        let e = exprs[left].share()?;
        work.push(Work::Eval(e))?;
    }
    Ok(())
}

/// The evaluation of the arguments is put on top, that of the first uppermost.
fn push_args(work: &mut Stack<Work>, given: &[Arg]) -> Result<(), AllocError>
    ensures { OnOk result (work.new ≡ evals (values_of (args given.now)) ++ work.old) }
{
    let mut left = given.len();
    while left > 0 {
        left -= 1;
        let e = given[left].value.share()?;
        work.push(Work::Eval(e))?;
    }
    Ok(())
}

/// The Argument sites of the arguments.
fn arg_sites(alloc: Global, given: &[Arg]) -> Result<Items<Option<u32>>, AllocError>
    ensures { IfOk result (λ ks. ks ≡ sites_of (args given.now)) }
{
    let mut sites = Items::new(alloc);
    for arg in given {
        sites.push(arg.site)?;
    }
    Ok(sites)
}

/// The next statement of a block, or its end.
pub fn block(
    body: StmtList,
    at: u64,
    mut frame: Frame,
    below: Stack<Frame>,
) -> Result<Outcome, AllocError>
    ensures { IfOk result (λ o. o ≡ block_at body at (slice_get body at) frame below) }
{
    let statements = body.get().len() as u64;
    if at < statements {
        let rest = body.share()?;
        frame.work.push(Work::Block(rest, at + 1))?;
        frame.work.push(Work::Stmt(body, at))?;
    }
    Ok(goes(frame, below))
}

/// What stands behind `else`, if anything does.
fn push_otherwise(work: &mut Stack<Work>, last: Option<StmtList>) -> Result<(), AllocError>
    ensures { OnOk result (work.new ≡ otherwise_work last ++ work.old) }
{
    if let Some(body) = last {
        work.push(Work::Block(body, 0))?;
    }
    Ok(())
}

/// The condition of a branch, or behind the last branch what stands behind `else`.
fn push_branch(
    work: &mut Stack<Work>,
    branches: Shared<Items<CastBranch>>,
    last: Option<StmtList>,
    at: u64,
) -> Result<(), AllocError>
    ensures { OnOk result (work.new ≡ branch_work branches last at ++ work.old) }
{
    let condition = match branches.get().get(at as usize) {
        None => return push_otherwise(work, last),
        Some(branch) => branch.condition.share()?,
    };
    work.push(Work::Branch(branches, last, at))?;
    work.push(Work::Eval(condition))?;
    Ok(())
}

#[tactic(auto, using(crate::proofs::Opened::opened, calculus_data::proofs::Pushed::pushed))]
fn print_statement(es: &[Shared<CastExpr>], mut frame: Frame) -> Result<Frame, AllocError>
    ensures { IfOk result (λ f. f ≡ statement (print (cast_exprs es.now)) frame) }
{
    frame.work.push(Work::Print(es.len() as u64))?;
    push_evals(&mut frame.work, es)?;
    Ok(frame)
}

fn start_statement(
    alloc: Global,
    name: &Name,
    site: Option<u32>,
    callee: &Shared<CastExpr>,
    given: &[Arg],
    mut frame: Frame,
) -> Result<Frame, AllocError>
    ensures { IfOk result (λ f. f ≡ statement (start name.now site callee.now (args given.now)) frame) }
{
    let sites = arg_sites(alloc, given)?;
    let name = name.share()?;
    frame.work.push(Work::Start(name, site, sites))?;
    push_args(&mut frame.work, given)?;
    let callee = callee.share()?;
    frame.work.push(Work::Eval(callee))?;
    Ok(frame)
}

#[tactic(auto, using(crate::proofs::Opened::opened, calculus_data::proofs::Pushed::pushed))]
fn if_statement(
    branches: &Shared<Items<CastBranch>>,
    last: &Option<StmtList>,
    mut frame: Frame,
) -> Result<Frame, AllocError>
    ensures { IfOk result (λ f. f ≡ statement (if_any (cast_branches branches.now) (cast_else_block last.now)) frame) }
{
    let branches = branches.share()?;
    let last = share_otherwise(last)?;
    push_branch(&mut frame.work, branches, last, 0)?;
    Ok(frame)
}

fn return_statement(
    alloc: Global,
    site: Option<u32>,
    value: &Shared<CastExpr>,
    mut frame: Frame,
) -> Result<Frame, AllocError>
    ensures { IfOk result (λ f. f ≡ statement (give site value.now) frame) }
{
    let mut work = Stack::new(alloc);
    push_leaving(&mut work, site)?;
    let value = value.share()?;
    work.push(Work::Eval(value))?;
    frame.work = work;
    Ok(frame)
}

#[tactic(auto, using(crate::proofs::Opened::opened, calculus_data::proofs::Pushed::pushed))]
fn while_statement(
    condition: &Shared<CastExpr>,
    body: &StmtList,
    mut frame: Frame,
) -> Result<Frame, AllocError>
    ensures { IfOk result (λ f. f ≡ statement (loop condition.now (cast_block body.now)) frame) }
{
    let condition = condition.share()?;
    let body = body.share()?;
    frame.work.push(Work::Loop(condition, body))?;
    Ok(frame)
}

/// Work with a part that is to be evaluated first.
fn evaluates(item: Work, part: &Shared<CastExpr>, mut frame: Frame) -> Result<Frame, AllocError>
    ensures { IfOk result (λ f. f ≡ does (Work.Eval part.now ∷ item ∷ []) frame) }
{
    frame.work.push(item)?;
    let part = part.share()?;
    frame.work.push(Work::Eval(part))?;
    Ok(frame)
}

/// Work with two parts, of which the first is evaluated first.
fn evaluates_two(
    item: Work,
    first: &Shared<CastExpr>,
    second: &Shared<CastExpr>,
    mut frame: Frame,
) -> Result<Frame, AllocError>
    ensures { IfOk result (λ f. f ≡ does (Work.Eval first.now ∷ Work.Eval second.now ∷ item ∷ []) frame) }
{
    frame.work.push(item)?;
    let second = second.share()?;
    frame.work.push(Work::Eval(second))?;
    let first = first.share()?;
    frame.work.push(Work::Eval(first))?;
    Ok(frame)
}

/// What a statement becomes.
fn statement(alloc: Global, s: &CastStmt, frame: Frame) -> Result<Frame, AllocError>
    ensures { IfOk result (λ f. f ≡ statement s.now frame) }
{
    match &s.kind {
        CastStmtKind::Pass => Ok(frame),
        CastStmtKind::Return(site, value) => return_statement(alloc, *site, value, frame),
        CastStmtKind::Print(es) => print_statement(es.as_slice(), frame),
        CastStmtKind::Assign(name, e) => {
            let name = name.share()?;
            evaluates(Work::Store(name), e, frame)
        }
        CastStmtKind::Write(member, write, is, o, field, e) => {
            let is = is.share()?;
            let field = field.share()?;
            let item = Work::Write {
                member: *member,
                write: *write,
                is,
                field,
                fitted: None,
            };
            evaluates_two(item, e, o, frame)
        }
        CastStmtKind::Start(name, site, callee, given) => {
            start_statement(alloc, name, *site, callee, given.as_slice(), frame)
        }
        CastStmtKind::Plain(e) => evaluates(Work::Forget, e, frame),
        CastStmtKind::If(branches, last) => if_statement(branches, last, frame),
        CastStmtKind::While(condition, body) => while_statement(condition, body, frame),
    }
}

/// The row of a statement of a block.
pub fn statement_row(
    alloc: Global,
    body: StmtList,
    at: u64,
    frame: Frame,
    below: Stack<Frame>,
) -> Result<Outcome, AllocError>
    ensures { IfOk result (λ o. o ≡ statement_at (slice_get body at) frame below) }
{
    match body.get().get(at as usize) {
        None => Ok(Outcome::NoRow),
        Some(s) => {
            let frame = statement(alloc, s, frame)?;
            Ok(goes(frame, below))
        }
    }
}

/// Takes the top value and binds it.
pub fn store(name: Name, mut frame: Frame, below: Stack<Frame>) -> Outcome
    ensures { result ≡ store name frame.values frame below }
{
    let Some(value) = frame.values.pop() else {
        return Outcome::NoRow;
    };
    frame.names.set(name.as_slice(), Some(value));
    goes(frame, below)
}

/// Drops the top value.
pub fn forget(mut frame: Frame, below: Stack<Frame>) -> Outcome
    ensures { result ≡ forget frame.values frame below }
{
    match frame.values.pop() {
        None => Outcome::NoRow,
        Some(_) => goes(frame, below),
    }
}

/// The block of a branch.
fn push_block(work: &mut Stack<Work>, branches: &[CastBranch], at: u64) -> Result<(), AllocError>
    ensures { OnOk result (work.new ≡ block_of (slice_get branches.now at) ++ work.old) }
{
    if let Some(branch) = branches.get(at as usize) {
        let body = branch.body.share()?;
        work.push(Work::Block(body, 0))?;
    }
    Ok(())
}

/// The condition of a branch was evaluated.
pub fn branch(
    branches: Shared<Items<CastBranch>>,
    last: Option<StmtList>,
    at: u64,
    mut frame: Frame,
    below: Stack<Frame>,
) -> Result<Outcome, AllocError>
    ensures { IfOk result (λ o. o ≡ on_bool frame.values (branch_turn branches last at) frame below) }
{
    match frame.values.pop() {
        Some(Val::Bool(true)) => {
            push_block(&mut frame.work, branches.get().as_slice(), at)?;
            Ok(goes(frame, below))
        }
        Some(Val::Bool(false)) => {
            push_next(&mut frame.work, branches, last, at)?;
            Ok(goes(frame, below))
        }
        _ => Ok(Outcome::NoRow),
    }
}

/// The condition of the branch behind this one, or what stands behind `else`.
fn push_next(
    work: &mut Stack<Work>,
    branches: Shared<Items<CastBranch>>,
    last: Option<StmtList>,
    at: u64,
) -> Result<(), AllocError>
    ensures { OnOk result (work.new ≡ branch_work branches last (at + 1) ++ work.old) }
{
    if at < branches.get().len() as u64 {
        push_branch(work, branches, last, at + 1)
    } else {
        push_otherwise(work, last)
    }
}

/// A loop's condition is to be evaluated.
pub fn begin_turn(
    condition: Shared<CastExpr>,
    body: StmtList,
    mut frame: Frame,
    below: Stack<Frame>,
) -> Result<Outcome, AllocError>
    ensures { IfOk result (λ o. o ≡ goes (does (Work.Eval condition ∷ Work.Turn condition body ∷ []) frame) below) }
{
    let again = condition.share()?;
    frame.work.push(Work::Turn(again, body))?;
    frame.work.push(Work::Eval(condition))?;
    Ok(goes(frame, below))
}

/// A loop's condition was evaluated.
pub fn turn(
    condition: Shared<CastExpr>,
    body: StmtList,
    mut frame: Frame,
    below: Stack<Frame>,
) -> Result<Outcome, AllocError>
    ensures { IfOk result (λ o. o ≡ on_bool frame.values (loop_turn condition body) frame below) }
{
    match frame.values.pop() {
        Some(Val::Bool(true)) => {
            let now = body.share()?;
            frame.work.push(Work::Loop(condition, body))?;
            frame.work.push(Work::Block(now, 0))?;
            Ok(goes(frame, below))
        }
        Some(Val::Bool(false)) => Ok(goes(frame, below)),
        _ => Ok(Outcome::NoRow),
    }
}

/// The first part of `and` or `or` was evaluated.
pub fn short(
    decides: bool,
    second: Shared<CastExpr>,
    mut frame: Frame,
    below: Stack<Frame>,
) -> Result<Outcome, AllocError>
    ensures { IfOk result (λ o. o ≡ short decides second frame.values frame below) }
{
    match (decides, frame.values.pop()) {
        (true, Some(Val::Bool(true))) => puts(Val::Bool(true), frame, below),
        (false, Some(Val::Bool(false))) => puts(Val::Bool(false), frame, below),
        (_, Some(Val::Bool(_))) => {
            frame.work.push(Work::Eval(second))?;
            Ok(goes(frame, below))
        }
        _ => Ok(Outcome::NoRow),
    }
}

/// The value of a name, at its Name site.
fn read_name(
    site: u32,
    name: &Name,
    frame: Frame,
    below: Stack<Frame>,
) -> Result<Outcome, AllocError>
    ensures { IfOk result (λ o. o ≡ name_at site (lookup frame.names name.now) frame below) }
{
    match frame.names.get(name.as_slice()) {
        None => Ok(Outcome::NoRow),
        Some(None) => Ok(fails(End::Unbound(site))),
        Some(Some(value)) => {
            let value = copy_val(value)?;
            puts(value, frame, below)
        }
    }
}

/// A function at its declared type.
fn read_function(
    script: &CastScript,
    func: u32,
    frame: Frame,
    below: Stack<Frame>,
) -> Result<Outcome, AllocError>
    ensures { IfOk result (λ o. o ≡ function_at func (slice_get script.now.functions func) frame below) }
{
    match script.functions.get(func as usize) {
        None => Ok(Outcome::NoRow),
        Some(definition) => {
            let merged = definition.ty.share()?;
            puts(Val::Fun { func, merged }, frame, below)
        }
    }
}

/// The thread that a name started is to be joined.
fn read_handle(
    site: u32,
    name: &Name,
    mut frame: Frame,
    below: Stack<Frame>,
) -> Result<Outcome, AllocError>
    ensures { IfOk result (λ o. o ≡ handle_at site (lookup frame.handles name.now) frame below) }
{
    let thread = match frame.handles.get(name.as_slice()) {
        None => return Ok(Outcome::NoRow),
        Some(None) => return Ok(fails(End::Unbound(site))),
        Some(Some(thread)) => *thread,
    };
    frame.work.push(Work::Join(thread))?;
    Ok(goes(frame, below))
}

fn literal(n: u64) -> Val
    ensures { result ≡ literal n }
{
    Val::Int(n.min(GREATEST_INTEGER) as i64)
}

#[tactic(auto, using(crate::proofs::Opened::opened, calculus_data::proofs::Pushed::pushed))]
fn eval_make(class: u32, parts: &[Shared<CastExpr>], mut frame: Frame) -> Result<Frame, AllocError>
    ensures { IfOk result (λ f. f ≡ does (evals (cast_exprs_list (cast_exprs parts.now)) ++ Work.New class ∷ []) frame) }
{
    frame.work.push(Work::New(class))?;
    push_evals(&mut frame.work, parts)?;
    Ok(frame)
}

fn eval_call(
    alloc: Global,
    site: Option<u32>,
    callee: &Shared<CastExpr>,
    given: &[Arg],
    mut frame: Frame,
) -> Result<Frame, AllocError>
    ensures { IfOk result (λ f. f ≡ does (Work.Eval callee.now ∷ evals (values_of (args given.now)) ++ Work.Call site (sites_of (args given.now)) ∷ []) frame) }
{
    let sites = arg_sites(alloc, given)?;
    frame.work.push(Work::Call(site, sites))?;
    push_args(&mut frame.work, given)?;
    let callee = callee.share()?;
    frame.work.push(Work::Eval(callee))?;
    Ok(frame)
}

/// Work with a part that is to be evaluated first: the row of an expression with one such part.
fn eval_part(
    item: Work,
    part: &Shared<CastExpr>,
    frame: Frame,
    below: Stack<Frame>,
) -> Result<Outcome, AllocError>
    ensures { IfOk result (λ o. o ≡ goes (does (Work.Eval part.now ∷ item ∷ []) frame) below) }
{
    let frame = evaluates(item, part, frame)?;
    Ok(goes(frame, below))
}

/// The row of an expression.
pub fn eval(
    alloc: Global,
    script: &CastScript,
    e: &CastExpr,
    frame: Frame,
    below: Stack<Frame>,
) -> Result<Outcome, AllocError>
    ensures { IfOk result (λ o. o ≡ eval script.now e.now frame below) }
{
    match &e.kind {
        CastExprKind::Int(n) => puts(literal(*n), frame, below),
        CastExprKind::Text(text) => puts(Val::Text(text.share()?), frame, below),
        CastExprKind::Bool(b) => puts(Val::Bool(*b), frame, below),
        CastExprKind::Nil => puts(Val::Nil, frame, below),
        CastExprKind::Local(site, name) => read_name(*site, name, frame, below),
        CastExprKind::Function(func) => read_function(script, *func, frame, below),
        CastExprKind::Neg(site, a) => eval_part(Work::Neg(*site), a, frame, below),
        CastExprKind::Not(a) => eval_part(Work::Not, a, frame, below),
        CastExprKind::Binary(op, site, arithmetic, a, b) => {
            let frame = evaluates_two(Work::Binary(*op, *site, *arithmetic), a, b, frame)?;
            Ok(goes(frame, below))
        }
        CastExprKind::And(a, b) => eval_part(Work::Short(false, b.share()?), a, frame, below),
        CastExprKind::Or(a, b) => eval_part(Work::Short(true, b.share()?), a, frame, below),
        CastExprKind::Read(site, o, field) => {
            eval_part(Work::Read(*site, field.share()?), o, frame, below)
        }
        CastExprKind::New(class, parts) => {
            let frame = eval_make(*class, parts.as_slice(), frame)?;
            Ok(goes(frame, below))
        }
        CastExprKind::Call(site, callee, given) => {
            let frame = eval_call(alloc, *site, callee, given.as_slice(), frame)?;
            Ok(goes(frame, below))
        }
        CastExprKind::Fit(site, a) => eval_part(Work::Cast(*site), a, frame, below),
        CastExprKind::Join(site, name) => read_handle(*site, name, frame, below),
    }
}

/// An error at an Arithmetic site, which has to be there.
fn operates(
    operator: Option<u32>,
    arithmetic: Option<u32>,
    operated: Operated,
    frame: Frame,
    below: Stack<Frame>,
) -> Result<Outcome, AllocError>
    ensures { IfOk result (λ o. o ≡ operates operator arithmetic operated frame below) }
{
    match (operated, arithmetic) {
        (Operated::Gives(value), _) => puts(value, frame, below),
        (Operated::Unfit, _) => Ok(blames(operator)),
        (Operated::ZeroDivision, Some(site)) => Ok(fails(End::ZeroDivision(site))),
        (Operated::Overflow, Some(site)) => Ok(fails(End::Overflow(site))),
        (_, None) => Ok(Outcome::NoRow),
    }
}

/// The row of a binary operator. The second operand stands on top.
pub fn binary(
    op: Op,
    operator: Option<u32>,
    arithmetic: Option<u32>,
    mut frame: Frame,
    below: Stack<Frame>,
) -> Result<Outcome, AllocError>
    ensures { IfOk result (λ o. o ≡ binary_row op operator arithmetic frame.values frame below) }
{
    let Some(second) = frame.values.pop() else {
        return Ok(Outcome::NoRow);
    };
    let Some(first) = frame.values.pop() else {
        return Ok(Outcome::NoRow);
    };
    let operated = operate(op, &first, &second);
    operates(operator, arithmetic, operated, frame, below)
}

/// The row of a negation.
pub fn neg(arithmetic: u32, mut frame: Frame, below: Stack<Frame>) -> Result<Outcome, AllocError>
    ensures { IfOk result (λ o. o ≡ neg_row arithmetic frame.values frame below) }
{
    let Some(value) = frame.values.pop() else {
        return Ok(Outcome::NoRow);
    };
    let operated = negated(&value);
    operates(None, Some(arithmetic), operated, frame, below)
}

/// The row of `not`.
pub fn not(mut frame: Frame, below: Stack<Frame>) -> Result<Outcome, AllocError>
    ensures { IfOk result (λ o. o ≡ not_row frame.values frame below) }
{
    match frame.values.pop() {
        Some(Val::Bool(b)) => puts(Val::Bool(!b), frame, below),
        _ => Ok(Outcome::NoRow),
    }
}
