ghost use Rattle.std.specs.Prelude.{◌≡◌, ℕ, List, [], IfOk, Some, option_and_then, slice_get};
ghost use Rattle.std.specs.Option.{option_map};
ghost use Rattle.mono_syntax.specs.CastExprView.{cast_expr_of};
ghost use Rattle.mono_syntax.specs.CastExpr as cast;
ghost use Rattle.cast_nodes.specs.computed.Noded.{fitted, fit_all, with_arguments, site_at, name_node, call_node, called_node, node};

use crate::numbers::{called_number, function_number};
use known_names::Known;
use mono_list::Shared;
use mono_syntax::{Arg, CastExpr, CastExprKind, Expr, ExprKind, Op, Word};
use sqlite_items::Items;
use std::alloc::{AllocError, Global};

/// What an expression became, if it is one of a typed script.
type Node = Result<Option<Shared<CastExpr>>, AllocError>;

/// An expression with its casts for its first owner.
fn new_expr(alloc: Global, kind: CastExprKind) -> Result<Shared<CastExpr>, AllocError>
    ensures { IfOk result (λ c. c ≡ cast_expr_of kind) }
{
    Shared::new(alloc, CastExpr { kind })
}

fn made(alloc: Global, kind: CastExprKind) -> Node
    ensures { IfOk result (λ c. c ≡ Some (cast_expr_of kind)) }
{
    Ok(Some(new_expr(alloc, kind)?))
}

// ---- rows

/// A part with its cast, where one stands.
fn fitted(
    alloc: Global,
    site: Option<u32>,
    part: &Shared<CastExpr>,
) -> Result<Shared<CastExpr>, AllocError>
    ensures { IfOk result (λ c. c ≡ fitted site part.now) }
{
    let part = part.share()?;
    match site {
        Some(site) => new_expr(alloc, CastExprKind::Fit(site, part)),
        None => Ok(part),
    }
}

/// Parts with their casts, where they stand.
#[tactic(auto, using(crate::proofs::NodeRows::over))]
pub fn fit_all(
    alloc: Global,
    sites: &[Option<u32>],
    parts: &[Shared<CastExpr>],
) -> Result<Items<Shared<CastExpr>>, AllocError>
    ensures { IfOk result (λ all. all ≡ fit_all [] sites.now parts.now) }
{
    let mut all = Items::new(alloc);
    for (site, part) in sites.iter().zip(parts) {
        all.push(fitted(alloc, *site, part)?)?;
    }
    Ok(all)
}

/// Arguments with their sites.
#[tactic(auto, using(crate::proofs::NodeRows::over))]
pub fn arguments(
    alloc: Global,
    sites: &[Option<u32>],
    values: &[Shared<CastExpr>],
) -> Result<Items<Arg>, AllocError>
    ensures { IfOk result (λ all. all ≡ with_arguments [] sites.now values.now) }
{
    let mut all = Items::new(alloc);
    for (site, value) in sites.iter().zip(values) {
        let site = *site;
        let value = value.share()?;
        all.push(Arg { site, value })?;
    }
    Ok(all)
}

/// All parts for another owner.
pub fn shared_parts(
    alloc: Global,
    parts: &[Shared<CastExpr>],
) -> Result<Items<Shared<CastExpr>>, AllocError>
    ensures { IfOk result (λ all. all ≡ parts.now) }
{
    let mut all = Items::new(alloc);
    for part in parts {
        all.push(part.share()?)?;
    }
    Ok(all)
}

// ---- parts by their places

/// The number of the site at this slot.
pub fn site_at(sites: &[Option<u32>], at: usize) -> Option<u32>
    ensures { result ≡ site_at sites.now at }
{
    match sites.get(at) {
        Some(site) => *site,
        None => None,
    }
}

/// The part at this place.
pub fn part_at(
    parts: &[Shared<CastExpr>],
    at: usize,
) -> Result<Option<Shared<CastExpr>>, AllocError>
    ensures { IfOk result (λ part. part ≡ slice_get parts.now at) }
{
    match parts.get(at) {
        Some(part) => Ok(Some(part.share()?)),
        None => Ok(None),
    }
}

// ---- nodes

fn name_node(alloc: Global, known: &Known, site: Option<u32>, word: &Word) -> Node
    ensures { IfOk result (λ c. c ≡ name_node known.now site word.now) }
{
    if let Some(site) = site {
        let name = word.text.share()?;
        return made(alloc, CastExprKind::Local(site, name));
    }
    match function_number(known, &word.text)? {
        Some(number) => made(alloc, CastExprKind::Function(number)),
        None => Ok(None),
    }
}

fn neg_node(alloc: Global, site: Option<u32>, part: Option<Shared<CastExpr>>) -> Node
    ensures { IfOk result (λ c. c ≡ option_and_then (λ k. option_map (λ p. cast.neg k p) part) site) }
{
    let Some(site) = site else {
        return Ok(None);
    };
    match part {
        Some(part) => made(alloc, CastExprKind::Neg(site, part)),
        None => Ok(None),
    }
}

fn negation_node(alloc: Global, part: Option<Shared<CastExpr>>) -> Node
    ensures { IfOk result (λ c. c ≡ option_map (λ p. cast.negation p) part) }
{
    match part {
        Some(part) => made(alloc, CastExprKind::Not(part)),
        None => Ok(None),
    }
}

fn binary_node(
    alloc: Global,
    op: Op,
    sites: &[Option<u32>],
    first: Option<Shared<CastExpr>>,
    second: Option<Shared<CastExpr>>,
) -> Node
    ensures { IfOk result (λ c. c ≡ option_and_then (λ p. option_map (λ q. cast.binary op (site_at sites.now 0) (site_at sites.now 1) p q) second) first) }
{
    let Some(first) = first else {
        return Ok(None);
    };
    let Some(second) = second else {
        return Ok(None);
    };
    let operator = site_at(sites, 0);
    let arithmetic = site_at(sites, 1);
    made(
        alloc,
        CastExprKind::Binary(op, operator, arithmetic, first, second),
    )
}

fn both_node(
    alloc: Global,
    first: Option<Shared<CastExpr>>,
    second: Option<Shared<CastExpr>>,
) -> Node
    ensures { IfOk result (λ c. c ≡ option_and_then (λ p. option_map (λ q. cast.both p q) second) first) }
{
    let Some(first) = first else {
        return Ok(None);
    };
    match second {
        Some(second) => made(alloc, CastExprKind::And(first, second)),
        None => Ok(None),
    }
}

fn either_node(
    alloc: Global,
    first: Option<Shared<CastExpr>>,
    second: Option<Shared<CastExpr>>,
) -> Node
    ensures { IfOk result (λ c. c ≡ option_and_then (λ p. option_map (λ q. cast.either p q) second) first) }
{
    let Some(first) = first else {
        return Ok(None);
    };
    match second {
        Some(second) => made(alloc, CastExprKind::Or(first, second)),
        None => Ok(None),
    }
}

fn read_node(alloc: Global, site: Option<u32>, part: Option<Shared<CastExpr>>, word: &Word) -> Node
    ensures { IfOk result (λ c. c ≡ option_map (λ p. cast.read site p word.now.text) part) }
{
    match part {
        Some(part) => {
            let name = word.text.share()?;
            made(alloc, CastExprKind::Read(site, part, name))
        }
        None => Ok(None),
    }
}

/// A call of the first part with the others.
fn call_node(alloc: Global, parts: &[Shared<CastExpr>], sites: &[Option<u32>]) -> Node
    ensures { IfOk result (λ c. c ≡ call_node parts.now sites.now) }
{
    let Some((callee, values)) = parts.split_first() else {
        return Ok(None);
    };
    let Some((site, tests)) = sites.split_first() else {
        return Ok(None);
    };
    let arguments = arguments(alloc, tests, values)?;
    let callee = callee.share()?;
    made(alloc, CastExprKind::Call(*site, callee, arguments))
}

/// A call, or a new object of the class of this number.
fn called_node(
    alloc: Global,
    class: Option<u32>,
    parts: &[Shared<CastExpr>],
    sites: &[Option<u32>],
) -> Node
    ensures { IfOk result (λ c. c ≡ called_node class parts.now sites.now) }
{
    match class {
        Some(number) => {
            let values = shared_parts(alloc, parts)?;
            made(alloc, CastExprKind::New(number, values))
        }
        None => call_node(alloc, parts, sites),
    }
}

fn written_node(alloc: Global, site: Option<u32>, part: Option<Shared<CastExpr>>) -> Node
    ensures { IfOk result (λ c. c ≡ option_and_then (λ k. option_map (λ p. cast.fit k p) part) site) }
{
    let Some(site) = site else {
        return Ok(None);
    };
    match part {
        Some(part) => made(alloc, CastExprKind::Fit(site, part)),
        None => Ok(None),
    }
}

fn join_node(alloc: Global, site: Option<u32>, word: &Word) -> Node
    ensures { IfOk result (λ c. c ≡ option_map (λ k. cast.join k word.now.text) site) }
{
    match site {
        Some(site) => {
            let name = word.text.share()?;
            made(alloc, CastExprKind::Join(site, name))
        }
        None => Ok(None),
    }
}

/// What an expression becomes over these parts, where its own sites have these numbers.
pub fn node(
    alloc: Global,
    known: &Known,
    e: &Expr,
    parts: &[Shared<CastExpr>],
    sites: &[Option<u32>],
) -> Result<Option<Shared<CastExpr>>, AllocError>
    ensures { IfOk result (λ c. c ≡ node known.now e.now parts.now sites.now) }
{
    match &e.kind {
        ExprKind::Local(word) => name_node(alloc, known, site_at(sites, 0), word),
        ExprKind::Int(_, number) => made(alloc, CastExprKind::Int(*number)),
        ExprKind::Text(_, text) => {
            let text = text.share()?;
            made(alloc, CastExprKind::Text(text))
        }
        ExprKind::Bool(_, truth) => made(alloc, CastExprKind::Bool(*truth)),
        ExprKind::Nil(_) => made(alloc, CastExprKind::Nil),
        ExprKind::Neg(_, _) => neg_node(alloc, site_at(sites, 0), part_at(parts, 0)?),
        ExprKind::Not(_, _) => negation_node(alloc, part_at(parts, 0)?),
        ExprKind::Binary(op, _, _, _) => {
            binary_node(alloc, *op, sites, part_at(parts, 0)?, part_at(parts, 1)?)
        }
        ExprKind::And(_, _) => both_node(alloc, part_at(parts, 0)?, part_at(parts, 1)?),
        ExprKind::Or(_, _) => either_node(alloc, part_at(parts, 0)?, part_at(parts, 1)?),
        ExprKind::Read(_, word) => { read_node(alloc, site_at(sites, 0), part_at(parts, 0)?, word) }
        ExprKind::Call(_, callee, _) => {
            let class = called_number(known, callee.get())?;
            called_node(alloc, class, parts, sites)
        }
        ExprKind::Cast(_, _, _) => { written_node(alloc, site_at(sites, 0), part_at(parts, 0)?) }
        ExprKind::Join(_, word) => join_node(alloc, site_at(sites, 0), word),
    }
}
