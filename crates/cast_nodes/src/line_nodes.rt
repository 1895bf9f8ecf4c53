ghost use Rattle.std.specs.Prelude.{◌≡◌, IfOk, Some, option_and_then, slice_get};
ghost use Rattle.std.specs.Option.{option_map};
ghost use Rattle.mono_syntax.specs.CastStmt as cast_stmt;
ghost use Rattle.mono_syntax.specs.CastExprView.{cast_exprs};
ghost use Rattle.cast_nodes.specs.computed.LineNodes.{put_write, put_line, start_node, write_node, line_node};
ghost use Rattle.cast_nodes.specs.computed.Noded.{site_at};

use crate::nodes::{arguments, part_at, shared_parts, site_at};
use crate::sites::{put_at_dyn, put_call};
use crate::slots::{Slots, put_tested};
use mono_list::Shared;
use mono_syntax::{CastExpr, CastStmt, CastStmtKind, Kind, Place, Stmt, StmtKind, Ty, Word};
use rule_choice::Part;
use std::alloc::{AllocError, Global};

// ---- own sites

/// A write's: at the field where the object is `Dyn`, and at the value.
fn put_write(
    alloc: Global,
    place: Place,
    parts: &[Part],
    asks: &[Shared<Ty>],
    slots: Slots,
) -> Result<Slots, AllocError>
    ensures { IfOk result (λ more. more ≡ put_write place parts.now asks.now slots) }
{
    let Some((_, values)) = parts.split_first() else {
        return Ok(slots);
    };
    let Some((_, asked)) = asks.split_first() else {
        return Ok(slots);
    };
    let slots = put_at_dyn(alloc, slots, Kind::Member, place, parts)?;
    put_tested(Kind::Write, slots, values, asked)
}

/// The own sites of a statement without blocks, whose parts are used at these types.
pub fn put_line(
    alloc: Global,
    s: &Stmt,
    parts: &[Part],
    asks: &[Shared<Ty>],
    slots: Slots,
) -> Result<Slots, AllocError>
    ensures { IfOk result (λ more. more ≡ put_line s.now parts.now asks.now slots) }
{
    match &s.kind {
        StmtKind::Return(_, _) => put_tested(Kind::Return, slots, parts, asks),
        StmtKind::Write(_, word, _) => put_write(alloc, word.place, parts, asks, slots),
        StmtKind::Start(_, bracket, _, _) => put_call(alloc, *bracket, parts, asks, slots),
        _ => Ok(slots),
    }
}

// ---- nodes

fn give_node(site: Option<u32>, part: Option<Shared<CastExpr>>) -> Option<CastStmt>
    ensures { result ≡ option_map (λ c. cast_stmt.give site c) part }
{
    match part {
        Some(part) => {
            let kind = CastStmtKind::Return(site, part);
            Some(CastStmt { kind })
        }
        None => None,
    }
}

fn print_node(alloc: Global, parts: &[Shared<CastExpr>]) -> Result<Option<CastStmt>, AllocError>
    ensures { IfOk result (λ c. c ≡ Some (cast_stmt.print (cast_exprs parts.now))) }
{
    let kind = CastStmtKind::Print(shared_parts(alloc, parts)?);
    Ok(Some(CastStmt { kind }))
}

fn assign_node(word: &Word, part: Option<Shared<CastExpr>>) -> Result<Option<CastStmt>, AllocError>
    ensures { IfOk result (λ c. c ≡ option_map (λ p. cast_stmt.assign word.now.text p) part) }
{
    match part {
        Some(part) => {
            let kind = CastStmtKind::Assign(word.text.share()?, part);
            Ok(Some(CastStmt { kind }))
        }
        None => Ok(None),
    }
}

fn type_asked(asks: &[Shared<Ty>], at: usize) -> Result<Option<Shared<Ty>>, AllocError>
    ensures { IfOk result (λ ty. ty ≡ slice_get asks.now at) }
{
    match asks.get(at) {
        Some(ty) => Ok(Some(ty.share()?)),
        None => Ok(None),
    }
}

/// A write knows the type at which its value is used.
fn write_node(
    word: &Word,
    ty: Option<Shared<Ty>>,
    object: Option<Shared<CastExpr>>,
    value: Option<Shared<CastExpr>>,
    sites: &[Option<u32>],
) -> Result<Option<CastStmt>, AllocError>
    ensures { IfOk result (λ c. c ≡ write_node word.now ty object value sites.now) }
{
    let Some(ty) = ty else {
        return Ok(None);
    };
    let Some(object) = object else {
        return Ok(None);
    };
    let Some(value) = value else {
        return Ok(None);
    };
    let member = site_at(sites, 0);
    let test = site_at(sites, 1);
    let kind = CastStmtKind::Write(member, test, ty, object, word.text.share()?, value);
    Ok(Some(CastStmt { kind }))
}

fn start_node(
    alloc: Global,
    word: &Word,
    parts: &[Shared<CastExpr>],
    sites: &[Option<u32>],
) -> Result<Option<CastStmt>, AllocError>
    ensures { IfOk result (λ c. c ≡ start_node word.now parts.now sites.now) }
{
    let Some((callee, values)) = parts.split_first() else {
        return Ok(None);
    };
    let Some((site, tests)) = sites.split_first() else {
        return Ok(None);
    };
    let arguments = arguments(alloc, tests, values)?;
    let callee = callee.share()?;
    let kind = CastStmtKind::Start(word.text.share()?, *site, callee, arguments);
    Ok(Some(CastStmt { kind }))
}

fn plain_node(part: Option<Shared<CastExpr>>) -> Option<CastStmt>
    ensures { result ≡ option_map (λ c. cast_stmt.plain c) part }
{
    match part {
        Some(part) => {
            let kind = CastStmtKind::Plain(part);
            Some(CastStmt { kind })
        }
        None => None,
    }
}

/// What a statement without blocks becomes over these parts, which are used at these types, where its own sites have these numbers.
pub fn line_node(
    alloc: Global,
    s: &Stmt,
    asks: &[Shared<Ty>],
    parts: &[Shared<CastExpr>],
    sites: &[Option<u32>],
) -> Result<Option<CastStmt>, AllocError>
    ensures { IfOk result (λ c. c ≡ line_node s.now asks.now parts.now sites.now) }
{
    match &s.kind {
        StmtKind::Pass => {
            let kind = CastStmtKind::Pass;
            Ok(Some(CastStmt { kind }))
        }
        StmtKind::Return(_, _) => Ok(give_node(site_at(sites, 0), part_at(parts, 0)?)),
        StmtKind::Print(_, _) => print_node(alloc, parts),
        StmtKind::Assign(word, _, _) => assign_node(word, part_at(parts, 0)?),
        StmtKind::Write(_, word, _) => {
            let ty = type_asked(asks, 1)?;
            write_node(word, ty, part_at(parts, 0)?, part_at(parts, 1)?, sites)
        }
        StmtKind::Start(word, _, _, _) => start_node(alloc, word, parts, sites),
        StmtKind::Plain(_) => Ok(plain_node(part_at(parts, 0)?)),
        _ => Ok(None),
    }
}
