ghost use Rattle.std.specs.Prelude.{◌≡◌, IfOk, Some, map};
ghost use Rattle.cast_rules.specs.OwnSites.{end_of};
ghost use Rattle.cast_nodes.specs.computed.Placed.{no_slots, with_slot};
ghost use Rattle.cast_insert.specs.computed.Scripted.{end_slot, block_of, cast_function, function_of, function_made};

use crate::line_uses::shared_type;
use crate::lines::block_inserted;
use crate::states::{Body, Function, State};
use cast_nodes::{Slots, no_slots, site_at, tested_site, with_slot};
use cast_rules::TypedSite;
use known_names::{Known, Local, new_type};
use mono_list::Shared;
use mono_syntax::{
    CastBlock, CastFunction, CastStmt, FuncDef, Kind, Name, Param, Place, Ty, TyKind,
};
use rule_choice::{Part, may_end};
use sqlite_items::Items;
use std::alloc::{AllocError, Global};

/// The test of the end of a body that gives `None` where this type is declared, if the body may end so.
fn end_of(
    alloc: Global,
    ends: bool,
    place: Place,
    ty: &Shared<Ty>,
) -> Result<Option<TypedSite>, AllocError>
    ensures { IfOk result (λ site. site ≡ end_of ends place ty.now) }
{
    if !ends {
        return Ok(None);
    }
    let none = new_type(alloc, TyKind::Nil)?;
    let end = Part { place, ty: none };
    tested_site(Kind::Return, &end, ty)
}

fn end_slot(
    alloc: Global,
    declared: Option<Shared<Ty>>,
    function: &FuncDef,
) -> Result<Option<TypedSite>, AllocError>
    ensures { IfOk result (λ site. site ≡ end_slot declared function.now) }
{
    match declared {
        Some(ty) => {
            let ends = may_end(function.body.as_slice());
            end_of(alloc, ends, function.name.place, &ty)
        }
        None => Ok(None),
    }
}

fn param_names(alloc: Global, params: &[Param]) -> Result<Items<Name>, AllocError>
    ensures { IfOk result (λ names. names ≡ map (λ q. q.name.text) params.now) }
{
    let mut names = Items::new(alloc);
    for param in params {
        names.push(param.name.text.share()?)?;
    }
    Ok(names)
}

/// A block with its names.
pub fn block_of(
    alloc: Global,
    local: Local,
    lines: Items<CastStmt>,
) -> Result<CastBlock, AllocError>
    ensures { IfOk result (λ b. b ≡ block_of local lines) }
{
    let Local {
        values,
        threads,
        ..
    } = local;
    let body = Shared::new(alloc, lines)?;
    Ok(CastBlock {
        names: values.into_items(),
        threads: threads.into_items(),
        body,
    })
}

fn cast_function(
    alloc: Global,
    function: &FuncDef,
    ty: &Shared<Ty>,
    block: CastBlock,
    falls: Option<u32>,
) -> Result<CastFunction, AllocError>
    ensures { IfOk result (λ f. f ≡ cast_function function.now ty.now block falls) }
{
    let params = param_names(alloc, function.params.as_slice())?;
    let ty = ty.share()?;
    Ok(CastFunction {
        params,
        ty,
        block,
        falls,
    })
}

/// A function whose body is done, and whose end has this site.
fn function_of(
    alloc: Global,
    function: &FuncDef,
    ty: &Shared<Ty>,
    body: Body,
    end: Option<TypedSite>,
) -> Result<Function, AllocError>
    ensures { IfOk result (λ f. f ≡ function_of function.now ty.now body (with_slot (no_slots body.state.sites) end)) }
{
    let Body { lines, state } = body;
    let State { local, sites } = state;
    let Slots { numbers, sites } = with_slot(no_slots(alloc, sites), end)?;
    let falls = site_at(numbers.as_slice(), 0);
    let block = block_of(alloc, local, lines)?;
    let function = cast_function(alloc, function, ty, block, falls)?;
    Ok(Function { function, sites })
}

/// A function whose body is done, where this is its declared result.
fn function_ended(
    alloc: Global,
    declared: Option<Shared<Ty>>,
    function: &FuncDef,
    ty: &Shared<Ty>,
    body: Body,
) -> Result<Option<Function>, AllocError>
    ensures { IfOk result (λ f. f ≡ Some (function_of function.now ty.now body (with_slot (no_slots body.state.sites) (end_slot declared function.now)))) }
{
    let end = end_slot(alloc, declared, function)?;
    Ok(Some(function_of(alloc, function, ty, body, end)?))
}

/// A function of this type whose body may name this, and whose sites go behind these. The site of its end stands behind those of its body.
pub fn function_made(
    alloc: Global,
    known: &Known,
    local: Local,
    function: &FuncDef,
    ty: &Shared<Ty>,
    sites: Items<TypedSite>,
) -> Result<Option<Function>, AllocError>
    ensures { IfOk result (λ f. f ≡ function_made known.now local function.now ty.now sites) }
{
    let declared = shared_type(&local.result)?;
    let state = State { local, sites };
    let Some(body) = block_inserted(alloc, known, state, function.body.as_slice())? else {
        return Ok(None);
    };
    function_ended(alloc, declared, function, ty, body)
}
