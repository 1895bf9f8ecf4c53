ghost use Rattle.std.specs.Prelude.{◌≡◌, IfOk, false};
ghost use Rattle.std.specs.Option.{option_copied};
ghost use Rattle.mono_tree.specs.TypedPrograms.{type_of_name};
ghost use Rattle.static_types.specs.Operators.{arithmetic, comparison, sort_of, is_dyn_sum};
ghost use Rattle.cast_rules.specs.OwnSites.{name_site};
ghost use Rattle.cast_rules.specs.Sites.{plain_site, site_at_dyn};
ghost use Rattle.rule_choice.specs.GivenParts.{types_of};
ghost use Rattle.cast_nodes.specs.computed.Placed.{with_slot, put_operator, put_written, put_call, put_called, put_own};

use crate::slots::{Slots, plain_site, put_tested, site_at_dyn, site_from, with_slot};
use known_names::{Known, KnownClass, Local};
use mono_list::Shared;
use mono_syntax::{Expr, ExprKind, Kind, Op, Place, Ty, Word};
use rule_choice::{Part, are_two_dyn, called_class};
use std::alloc::{AllocError, Global};

/// A site of a kind that has no types.
fn put_plain(alloc: Global, slots: Slots, place: Place, kind: Kind) -> Result<Slots, AllocError>
    ensures { IfOk result (λ more. more ≡ with_slot slots (Some (plain_site place kind))) }
{
    let site = plain_site(alloc, place, kind)?;
    with_slot(slots, Some(site))
}

/// A site where the first of these parts is `Dyn`.
pub fn put_at_dyn(
    alloc: Global,
    slots: Slots,
    kind: Kind,
    place: Place,
    parts: &[Part],
) -> Result<Slots, AllocError>
    ensures { IfOk result (λ more. more ≡ with_slot slots (site_at_dyn kind place (types_of parts.now))) }
{
    let site = site_at_dyn(alloc, kind, place, parts)?;
    with_slot(slots, site)
}

/// A name of the block may be unbound; a function's name never is.
fn put_name(
    alloc: Global,
    slots: Slots,
    value: Option<&Shared<Ty>>,
    place: Place,
) -> Result<Slots, AllocError>
    ensures { IfOk result (λ more. more ≡ with_slot slots (name_site (option_copied value.entry) place)) }
{
    match value {
        Some(_) => put_plain(alloc, slots, place, Kind::Name),
        None => with_slot(slots, None),
    }
}

/// Arithmetic may fail, and a sum of two `Dyn` may be of things that can't be added.
fn put_arithmetic(
    alloc: Global,
    dyn_sum: bool,
    place: Place,
    slots: Slots,
) -> Result<Slots, AllocError>
    ensures { IfOk result (λ more. more ≡ put_operator arithmetic dyn_sum place slots) }
{
    let slots = if dyn_sum {
        put_plain(alloc, slots, place, Kind::Operator)?
    } else {
        with_slot(slots, None)?
    };
    put_plain(alloc, slots, place, Kind::Arithmetic)
}

/// A comparison can't fail.
fn put_comparison(place: Place, slots: Slots) -> Result<Slots, AllocError>
    ensures { IfOk result (λ more. more ≡ put_operator comparison false place slots) }
{
    let slots = with_slot(slots, None)?;
    with_slot(slots, None)
}

fn put_operator(
    alloc: Global,
    op: Op,
    place: Place,
    parts: &[Part],
    slots: Slots,
) -> Result<Slots, AllocError>
    ensures { IfOk result (λ more. more ≡ put_operator (sort_of op) (is_dyn_sum op (types_of parts.now)) place slots) }
{
    match op {
        Op::Add => put_arithmetic(alloc, are_two_dyn(parts), place, slots),
        Op::Sub => put_arithmetic(alloc, false, place, slots),
        Op::Mul => put_arithmetic(alloc, false, place, slots),
        Op::Div => put_arithmetic(alloc, false, place, slots),
        Op::Mod => put_arithmetic(alloc, false, place, slots),
        _ => put_comparison(place, slots),
    }
}

/// A written cast's, at its part.
fn put_written(parts: &[Part], ty: &Shared<Ty>, slots: Slots) -> Result<Slots, AllocError>
    ensures { IfOk result (λ more. more ≡ put_written parts.now ty.now slots) }
{
    match parts.first() {
        Some(part) => {
            let site = site_from(part.place, Kind::Cast, &part.ty, ty)?;
            with_slot(slots, Some(site))
        }
        None => Ok(slots),
    }
}

/// A call's own, where its callee is `Dyn`, and then a test of each argument.
pub fn put_call(
    alloc: Global,
    bracket: Place,
    parts: &[Part],
    asks: &[Shared<Ty>],
    slots: Slots,
) -> Result<Slots, AllocError>
    ensures { IfOk result (λ more. more ≡ put_call bracket parts.now asks.now slots) }
{
    let Some((_, arguments)) = parts.split_first() else {
        return Ok(slots);
    };
    let Some((_, asked)) = asks.split_first() else {
        return Ok(slots);
    };
    let slots = put_at_dyn(alloc, slots, Kind::Call, bracket, parts)?;
    put_tested(Kind::Argument, slots, arguments, asked)
}

/// Those of a call, or none of a new object.
fn put_called(
    alloc: Global,
    class: Option<&KnownClass>,
    bracket: Place,
    parts: &[Part],
    asks: &[Shared<Ty>],
    slots: Slots,
) -> Result<Slots, AllocError>
    ensures { IfOk result (λ more. more ≡ put_called (option_copied class.entry) bracket parts.now asks.now slots) }
{
    match class {
        Some(_) => Ok(slots),
        None => put_call(alloc, bracket, parts, asks, slots),
    }
}

fn put_read_name(
    alloc: Global,
    local: &Local,
    word: &Word,
    slots: Slots,
) -> Result<Slots, AllocError>
    ensures { IfOk result (λ more. more ≡ with_slot slots (name_site (type_of_name local.now.values word.now.text) word.now.place)) }
{
    let value = local.values.get(&word.text);
    put_name(alloc, slots, value, word.place)
}

/// The own sites of an expression whose parts are used at these types, and which has this type.
pub fn put_own(
    alloc: Global,
    known: &Known,
    local: &Local,
    e: &Expr,
    parts: &[Part],
    asks: &[Shared<Ty>],
    ty: &Shared<Ty>,
    slots: Slots,
) -> Result<Slots, AllocError>
    ensures { IfOk result (λ more. more ≡ put_own known.now local.now e.now parts.now asks.now ty.now slots) }
{
    match &e.kind {
        ExprKind::Local(word) => put_read_name(alloc, local, word, slots),
        ExprKind::Neg(place, _) => put_plain(alloc, slots, *place, Kind::Arithmetic),
        ExprKind::Binary(op, place, _, _) => put_operator(alloc, *op, *place, parts, slots),
        ExprKind::Read(_, word) => put_at_dyn(alloc, slots, Kind::Member, word.place, parts),
        ExprKind::Call(bracket, callee, _) => {
            let class = called_class(known, callee.get());
            put_called(alloc, class, *bracket, parts, asks, slots)
        }
        ExprKind::Cast(_, _, _) => put_written(parts, ty, slots),
        ExprKind::Join(_, word) => put_plain(alloc, slots, word.place, Kind::Name),
        _ => Ok(slots),
    }
}
