ghost use Rattle.std.specs.Prelude.{Ok, is_some, if◌then◌else◌};
ghost use Rattle.mono_syntax.specs.ExprView.{exprs};
ghost use Rattle.known_names.specs.computed.Gives.{Gives};
ghost use Rattle.consistency.specs.computed.Checked.{no_parts, with_part, whole, ended, parts_typed, all_typed, typed};
ghost use Rattle.rule_choice.specs.computed.Ruled.{called_class};
ghost use Rattle.rule_choice.specs.computed.Steps.{and_then};

use crate::parts::{Parts, Whole, finished, no_parts};
use crate::trace::Trace;
use known_names::{Known, Local};
use mono_syntax::{Expr, ExprKind, LoadFault};
use rule_choice::{Part, called_class, first_apart, place_of, rule_of};
use std::alloc::Global;

/// An expression whose parts have their types.
fn whole(
    alloc: Global,
    known: &Known,
    local: &Local,
    e: &Expr,
    done: Parts,
) -> Result<Whole, LoadFault>
    ensures { Gives result (whole known.now local.now e.now done) }
{
    let Parts { parts, trace } = done;
    let rule = rule_of(alloc, known, local, e, parts.as_slice())?;
    let apart = first_apart(alloc, parts.as_slice(), rule.asks.as_slice())?;
    finished(apart, rule.gives, trace)
}

/// The type of an expression.
#[cycle(typed)]
pub fn typed(
    alloc: Global,
    known: &Known,
    local: &Local,
    e: &Expr,
    trace: Trace,
) -> Result<Whole, LoadFault>
    ensures { Gives result (typed known.now local.now e.now trace) }
{
    let parts = parts_typed(alloc, known, local, e, trace)?;
    whole(alloc, known, local, e, parts)
}

/// One more part, with its type.
#[cycle(typed)]
pub fn with_part(
    alloc: Global,
    known: &Known,
    local: &Local,
    done: Parts,
    e: &Expr,
) -> Result<Parts, LoadFault>
    ensures { Gives result (with_part done e.now (typed known.now local.now e.now done.trace)) }
{
    let Parts { mut parts, trace } = done;
    let Whole { ty, trace } = typed(alloc, known, local, e, trace)?;
    let place = place_of(e);
    parts.push(Part { place, ty })?;
    Ok(Parts { parts, trace })
}

#[cycle(typed)]
fn one_typed(
    alloc: Global,
    known: &Known,
    local: &Local,
    a: &Expr,
    trace: Trace,
) -> Result<Parts, LoadFault>
    ensures { Gives result (with_part (no_parts trace) a.now (typed known.now local.now a.now trace)) }
{
    with_part(alloc, known, local, no_parts(alloc, trace), a)
}

#[cycle(typed)]
fn two_typed(
    alloc: Global,
    known: &Known,
    local: &Local,
    a: &Expr,
    b: &Expr,
    trace: Trace,
) -> Result<Parts, LoadFault>
    ensures { Gives result (and_then (with_part (no_parts trace) a.now (ended known.now local.now a.now (parts_typed known.now local.now a.now trace))) (λ x. with_part x b.now (ended known.now local.now b.now (parts_typed known.now local.now b.now x.trace)))) }
{
    let first = with_part(alloc, known, local, no_parts(alloc, trace), a)?;
    with_part(alloc, known, local, first, b)
}

/// Expressions in a row, behind parts that are done.
#[cycle(typed)]
#[tactic(auto, using(mono_syntax::proofs::Parts::parts))]
pub fn all_typed(
    alloc: Global,
    known: &Known,
    local: &Local,
    done: Parts,
    es: &[Expr],
) -> Result<Parts, LoadFault>
    ensures { Gives result (all_typed known.now local.now done (exprs es.now)) }
{
    let mut done = done;
    for e in es {
        done = with_part(alloc, known, local, done, e)?;
    }
    Ok(done)
}

/// The callee of a call, which is no part where it is the name of a class, and the arguments.
#[cycle(typed)]
fn call_typed(
    alloc: Global,
    known: &Known,
    local: &Local,
    callee: &Expr,
    es: &[Expr],
    trace: Trace,
) -> Result<Parts, LoadFault>
    ensures { Gives result (and_then (if is_some (called_class known.now.classes callee.now) then Ok (no_parts trace) else with_part (no_parts trace) callee.now (ended known.now local.now callee.now (parts_typed known.now local.now callee.now trace))) (λ x. all_typed known.now local.now x (exprs es.now))) }
{
    let mut done = no_parts(alloc, trace);
    if called_class(known, callee).is_none() {
        done = with_part(alloc, known, local, done, callee)?;
    }
    all_typed(alloc, known, local, done, es)
}

/// The parts of an expression with their types, in source order.
#[cycle(typed)]
fn parts_typed(
    alloc: Global,
    known: &Known,
    local: &Local,
    e: &Expr,
    trace: Trace,
) -> Result<Parts, LoadFault>
    ensures { Gives result (parts_typed known.now local.now e.now trace) }
{
    match &e.kind {
        ExprKind::Neg(_, a) => one_typed(alloc, known, local, a.get(), trace),
        ExprKind::Not(_, a) => one_typed(alloc, known, local, a.get(), trace),
        ExprKind::Read(a, _) => one_typed(alloc, known, local, a.get(), trace),
        ExprKind::Cast(_, _, a) => one_typed(alloc, known, local, a.get(), trace),
        ExprKind::Binary(_, _, a, b) => two_typed(alloc, known, local, a.get(), b.get(), trace),
        ExprKind::And(a, b) => two_typed(alloc, known, local, a.get(), b.get(), trace),
        ExprKind::Or(a, b) => two_typed(alloc, known, local, a.get(), b.get(), trace),
        ExprKind::Call(_, callee, es) => {
            call_typed(alloc, known, local, callee.get(), es.as_slice(), trace)
        }
        _ => Ok(no_parts(alloc, trace)),
    }
}
