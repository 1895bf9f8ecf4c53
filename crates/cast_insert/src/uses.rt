ghost use Rattle.std.specs.Prelude.{◌≡◌, IfOk};
ghost use Rattle.cast_insert.specs.computed.Inserted.{used_each, used};

use crate::parts::Used;
use cast_nodes::{fit_all, no_slots, put_casts};
use cast_rules::TypedSite;
use mono_list::Shared;
use mono_syntax::{CastExpr, Expr, ExprKind, Ty};
use rule_choice::Part;
use sqlite_items::Items;
use std::alloc::{AllocError, Global};

/// Parts that are each used at a type.
pub fn used_each(
    alloc: Global,
    parts: &[Part],
    exprs: &[Shared<CastExpr>],
    sites: Items<TypedSite>,
    asks: &[Shared<Ty>],
) -> Result<Used, AllocError>
    ensures { IfOk result (λ u. u ≡ used_each (record { parts = parts.now; exprs = exprs.now; sites = sites }) asks.now) }
{
    let slots = put_casts(no_slots(alloc, sites), parts, asks)?;
    let exprs = fit_all(alloc, slots.numbers.as_slice(), exprs)?;
    let sites = slots.sites;
    Ok(Used { exprs, sites })
}

/// The parts of an expression, used at these types. A written cast takes its part as it is.
pub fn used(
    alloc: Global,
    e: &Expr,
    parts: &[Part],
    exprs: Items<Shared<CastExpr>>,
    sites: Items<TypedSite>,
    asks: &[Shared<Ty>],
) -> Result<Used, AllocError>
    ensures { IfOk result (λ u. u ≡ used e.now (record { parts = parts.now; exprs = exprs; sites = sites }) asks.now) }
{
    match &e.kind {
        ExprKind::Cast(_, _, _) => Ok(Used { exprs, sites }),
        _ => used_each(alloc, parts, exprs.as_slice(), sites, asks),
    }
}
