ghost use Rattle.std.specs.Prelude.{◌≡◌, IfOk, Some, is_some, option_and_then, if◌then◌else◌};
ghost use Rattle.mono_syntax.specs.ExprView.{exprs};
ghost use Rattle.rule_choice.specs.computed.Ruled.{called_class, ruled};
ghost use Rattle.cast_insert.specs.computed.Inserted.{allowed, made, whole, no_parts, with_part, ended, parts_inserted, all_inserted, inserted};

use crate::parts::{Parts, Used, Whole, no_parts};
use crate::uses::used;
use cast_nodes::{no_slots, node, put_own};
use cast_rules::TypedSite;
use known_names::{Known, Local};
use mono_syntax::{Expr, ExprKind, LoadFault};
use rule_choice::{Part, called_class, place_of, rule_of};
use sqlite_items::Items;
use static_types::Rule;
use std::alloc::{AllocError, Global};

/// The rule of an expression whose parts have their types, if it has one.
fn rule_for(
    alloc: Global,
    known: &Known,
    local: &Local,
    e: &Expr,
    parts: &[Part],
) -> Result<Option<Rule>, AllocError>
    ensures { IfOk result (λ rule. rule ≡ allowed (ruled known.now local.now e.now parts.now)) }
{
    match rule_of(alloc, known, local, e, parts) {
        Ok(rule) => Ok(Some(rule)),
        Err(LoadFault::Memory) => Err(AllocError),
        Err(LoadFault::Refused(_)) => Ok(None),
    }
}

/// An expression by its rule, whose parts are used so.
fn made(
    alloc: Global,
    known: &Known,
    local: &Local,
    e: &Expr,
    parts: &[Part],
    rule: Rule,
    used: Used,
) -> Result<Option<Whole>, AllocError>
    ensures { IfOk result (λ w. w ≡ made known.now local.now e.now parts.now rule used) }
{
    let Rule { asks, gives } = rule;
    let Used { exprs, sites } = used;
    let slots = no_slots(alloc, sites);
    let slots = put_own(
        alloc,
        known,
        local,
        e,
        parts,
        asks.as_slice(),
        &gives,
        slots,
    )?;
    match node(alloc, known, e, exprs.as_slice(), slots.numbers.as_slice())? {
        Some(expr) => Ok(Some(Whole {
            ty: gives,
            expr,
            sites: slots.sites,
        })),
        None => Ok(None),
    }
}

/// An expression whose parts are done.
fn whole(
    alloc: Global,
    known: &Known,
    local: &Local,
    e: &Expr,
    done: Parts,
) -> Result<Option<Whole>, AllocError>
    ensures { IfOk result (λ w. w ≡ whole known.now local.now e.now done) }
{
    let Parts {
        parts,
        exprs,
        sites,
    } = done;
    let parts = parts.as_slice();
    let Some(rule) = rule_for(alloc, known, local, e, parts)? else {
        return Ok(None);
    };
    let used = used(alloc, e, parts, exprs, sites, rule.asks.as_slice())?;
    made(alloc, known, local, e, parts, rule, used)
}

/// An expression with its casts, whose sites go behind these.
#[cycle(inserted)]
pub fn inserted(
    alloc: Global,
    known: &Known,
    local: &Local,
    e: &Expr,
    sites: Items<TypedSite>,
) -> Result<Option<Whole>, AllocError>
    ensures { IfOk result (λ w. w ≡ inserted known.now local.now e.now sites) }
{
    match parts_inserted(alloc, known, local, e, sites)? {
        Some(parts) => whole(alloc, known, local, e, parts),
        None => Ok(None),
    }
}

/// One more part, with its casts.
#[cycle(inserted)]
pub fn with_part(
    alloc: Global,
    known: &Known,
    local: &Local,
    done: Parts,
    e: &Expr,
) -> Result<Option<Parts>, AllocError>
    ensures { IfOk result (λ more. more ≡ with_part done e.now (inserted known.now local.now e.now done.sites)) }
{
    let Parts {
        mut parts,
        mut exprs,
        sites,
    } = done;
    let Some(whole) = inserted(alloc, known, local, e, sites)? else {
        return Ok(None);
    };
    let place = place_of(e);
    parts.push(Part {
        place,
        ty: whole.ty,
    })?;
    exprs.push(whole.expr)?;
    let sites = whole.sites;
    Ok(Some(Parts {
        parts,
        exprs,
        sites,
    }))
}

#[cycle(inserted)]
fn one_inserted(
    alloc: Global,
    known: &Known,
    local: &Local,
    a: &Expr,
    sites: Items<TypedSite>,
) -> Result<Option<Parts>, AllocError>
    ensures { IfOk result (λ x. x ≡ with_part (no_parts sites) a.now (inserted known.now local.now a.now sites)) }
{
    with_part(alloc, known, local, no_parts(alloc, sites), a)
}

#[cycle(inserted)]
fn two_inserted(
    alloc: Global,
    known: &Known,
    local: &Local,
    a: &Expr,
    b: &Expr,
    sites: Items<TypedSite>,
) -> Result<Option<Parts>, AllocError>
    ensures { IfOk result (λ x. x ≡ option_and_then (λ p. with_part p b.now (ended known.now local.now b.now (parts_inserted known.now local.now b.now p.sites))) (with_part (no_parts sites) a.now (ended known.now local.now a.now (parts_inserted known.now local.now a.now sites)))) }
{
    match with_part(alloc, known, local, no_parts(alloc, sites), a)? {
        Some(first) => with_part(alloc, known, local, first, b),
        None => Ok(None),
    }
}

/// Expressions in a row, behind parts that are done.
#[cycle(inserted)]
#[tactic(auto, using(mono_syntax::proofs::Parts::parts))]
pub fn all_inserted(
    alloc: Global,
    known: &Known,
    local: &Local,
    done: Parts,
    es: &[Expr],
) -> Result<Option<Parts>, AllocError>
    ensures { IfOk result (λ x. x ≡ all_inserted known.now local.now done (exprs es.now)) }
{
    let mut done = done;
    for e in es {
        let Some(more) = with_part(alloc, known, local, done, e)? else {
            return Ok(None);
        };
        done = more;
    }
    Ok(Some(done))
}

/// The callee of a call as a part, unless it is the name of a class.
#[cycle(inserted)]
fn callee_inserted(
    alloc: Global,
    known: &Known,
    local: &Local,
    callee: &Expr,
    sites: Items<TypedSite>,
) -> Result<Option<Parts>, AllocError>
    ensures { IfOk result (λ x. x ≡ if is_some (called_class known.now.classes callee.now) then Some (no_parts sites) else with_part (no_parts sites) callee.now (ended known.now local.now callee.now (parts_inserted known.now local.now callee.now sites))) }
{
    let start = no_parts(alloc, sites);
    if called_class(known, callee).is_some() {
        return Ok(Some(start));
    }
    with_part(alloc, known, local, start, callee)
}

/// The callee of a call, which is no part where it is the name of a class, and the arguments.
#[cycle(inserted)]
fn call_inserted(
    alloc: Global,
    known: &Known,
    local: &Local,
    callee: &Expr,
    es: &[Expr],
    sites: Items<TypedSite>,
) -> Result<Option<Parts>, AllocError>
    ensures { IfOk result (λ x. x ≡ option_and_then (λ p. all_inserted known.now local.now p (exprs es.now)) (if is_some (called_class known.now.classes callee.now) then Some (no_parts sites) else with_part (no_parts sites) callee.now (ended known.now local.now callee.now (parts_inserted known.now local.now callee.now sites)))) }
{
    match callee_inserted(alloc, known, local, callee, sites)? {
        Some(done) => all_inserted(alloc, known, local, done, es),
        None => Ok(None),
    }
}

/// The parts of an expression with their casts, in source order.
#[cycle(inserted)]
fn parts_inserted(
    alloc: Global,
    known: &Known,
    local: &Local,
    e: &Expr,
    sites: Items<TypedSite>,
) -> Result<Option<Parts>, AllocError>
    ensures { IfOk result (λ x. x ≡ parts_inserted known.now local.now e.now sites) }
{
    match &e.kind {
        ExprKind::Neg(_, a) => one_inserted(alloc, known, local, a.get(), sites),
        ExprKind::Not(_, a) => one_inserted(alloc, known, local, a.get(), sites),
        ExprKind::Read(a, _) => one_inserted(alloc, known, local, a.get(), sites),
        ExprKind::Cast(_, _, a) => one_inserted(alloc, known, local, a.get(), sites),
        ExprKind::Binary(_, _, a, b) => two_inserted(alloc, known, local, a.get(), b.get(), sites),
        ExprKind::And(a, b) => two_inserted(alloc, known, local, a.get(), b.get(), sites),
        ExprKind::Or(a, b) => two_inserted(alloc, known, local, a.get(), b.get(), sites),
        ExprKind::Call(_, callee, es) => {
            call_inserted(alloc, known, local, callee.get(), es.as_slice(), sites)
        }
        _ => Ok(Some(no_parts(alloc, sites))),
    }
}
