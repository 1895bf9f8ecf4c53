ghost use Rattle.std.specs.Prelude.{ℕ, ◌≡◌, ◌<◌, Contains, Some, None, List, slice_get, length, IfOk, IfErr, OnOk};
ghost use Rattle.mono_syntax.specs.Ty.{Ty};
ghost use Rattle.type_shapes.specs.declared.shape.Shape.{Shape};
ghost use Rattle.type_shapes.specs.Shows.{Shows, IsNamed, AreMeets};
ghost use Rattle.mono_tree.specs.ClosedList.{put, with_row, first_types, IsClosedList};
ghost use Rattle.type_shapes.specs.Limits.{most_types, IsWithinLimits, IsFault, IsRefusal};
ghost use Rattle.mono_syntax.specs.declared.refusal.LoadFault.TheVariants.{Memory};
ghost use Rattle.type_shapes.specs.Numbered.{IsNumbered, IsRow};
ghost use Rattle.type_shapes.specs.computed.PairMeets.{is_dyn, met_of, pair_meet, pair_list};

use crate::made::made_type;
use crate::measure::is_too_large_by_parts;
use crate::meets::met_shape;
use crate::putting::{put_small, refusal};
use crate::shape::{Head, Shape};
use indexmap::IndexSet;
use mono_syntax::{LoadFault, Name, Reason, Ty};
use sqlite_items::Items;
use std::alloc::{AllocError, Global};

/// What two types meet in: a type with a number, a type by its shape, or nothing.
#[derive(Drop)]
pub enum Met {
    At(usize),
    New(Shape),
    Apart,
}

fn is_dyn(head: Head) -> bool
    ensures { result ≡ is_dyn head }
{
    match head {
        Head::Dyn => true,
        _ => false,
    }
}

fn met_of(
    alloc: Global,
    shapes: &IndexSet<Shape>,
    rows: &[Items<Option<u16>>],
    j: usize,
    i: usize,
) -> Result<Met, AllocError>
    ensures { IfOk result (λ met. met ≡ met_of rows.now (slice_get shapes.now.keys j) (slice_get shapes.now.keys i) j i) }
{
    let Some(a) = shapes.get_index(j) else {
        return Ok(Met::Apart);
    };
    let Some(b) = shapes.get_index(i) else {
        return Ok(Met::Apart);
    };
    if is_dyn(a.head) {
        return Ok(Met::At(i));
    }
    if is_dyn(b.head) {
        return Ok(Met::At(j));
    }
    match met_shape(alloc, rows, a, b)? {
        Some(shape) => Ok(Met::New(shape)),
        None => Ok(Met::Apart),
    }
}

/// A place as a number of a type.
fn small(at: usize) -> u16
    requires { at < most_types }
    ensures { result ≡ at }
{
    at as u16
}

/// The type of a shape, which is not there, goes to the end of the list. Where it is too large, it isn't made.
fn add_type(
    alloc: Global,
    names: &[Items<Name>],
    set: &mut IndexSet<Ty>,
    shape: &Shape,
) -> Result<(), LoadFault>
    requires fine { IsWithinLimits set.old.keys }
    requires shown { (m : Ty) × Shows names.now set.old.keys shape.now m }
    requires absent { (m : Ty) → Shows names.now set.old.keys shape.now m → Contains set.old.keys m → ⊥ }
    ensures keys { OnOk result ((m : Ty) → Shows names.now set.old.keys shape.now m → set.new.keys ≡ put set.old.keys m) }
    ensures fine { OnOk result (IsWithinLimits set.new.keys) }
    ensures fault { IfErr result (λ e. (m : Ty) → Shows names.now set.old.keys shape.now m → IsFault (put set.old.keys m) e) }
{
    if is_too_large_by_parts(set, shape.parts.as_slice()) {
        return Err(refusal(Reason::TypeTooLarge));
    }
    let made = made_type(alloc, names, set, shape)?;
    put_small(set, made.unwrap())
}

/// The number of the type of a shape, which goes to the end of both lists unless it is there already.
fn number(
    alloc: Global,
    names: &[Items<Name>],
    set: &mut IndexSet<Ty>,
    shapes: &mut IndexSet<Shape>,
    shape: Shape,
) -> Result<u16, LoadFault>
    requires numbered { IsNumbered names.now set.old.keys shapes.old.keys }
    requires fine { IsWithinLimits set.old.keys }
    requires shown { (m : Ty) × Shows names.now set.old.keys shape m }
    ensures numbered { OnOk result (IsNumbered names.now set.new.keys shapes.new.keys) }
    ensures fine { OnOk result (IsWithinLimits set.new.keys) }
    ensures keys { OnOk result ((m : Ty) → Shows names.now set.old.keys shape m → set.new.keys ≡ put set.old.keys m) }
    ensures at { IfOk result (λ n. (m : Ty) → Shows names.now set.old.keys shape m → slice_get set.new.keys n ≡ Some m) }
    ensures fault { IfErr result (λ e. (m : Ty) → Shows names.now set.old.keys shape m → IsFault (put set.old.keys m) e) }
{
    let (at, is_new) = shapes.insert_full(shape)?;
    if !is_new {
        return Ok(small(at));
    }
    let newest = shapes.get_index(at).unwrap();
    add_type(alloc, names, set, newest)?;
    Ok(small(at))
}

fn number_of_new(
    alloc: Global,
    names: &[Items<Name>],
    set: &mut IndexSet<Ty>,
    shapes: &mut IndexSet<Shape>,
    shape: Shape,
) -> Result<Option<u16>, LoadFault>
    requires numbered { IsNumbered names.now set.old.keys shapes.old.keys }
    requires fine { IsWithinLimits set.old.keys }
    requires shown { (m : Ty) × Shows names.now set.old.keys shape m }
    ensures numbered { OnOk result (IsNumbered names.now set.new.keys shapes.new.keys) }
    ensures fine { OnOk result (IsWithinLimits set.new.keys) }
    ensures keys { OnOk result ((m : Ty) → Shows names.now set.old.keys shape m → set.new.keys ≡ put set.old.keys m) }
    ensures at { IfOk result (λ n. (m : Ty) → Shows names.now set.old.keys shape m → IsNamed set.new.keys n (Some m)) }
    ensures fault { IfErr result (λ e. (m : Ty) → Shows names.now set.old.keys shape m → IsFault (put set.old.keys m) e) }
{
    let n = number(alloc, names, set, shapes, shape)?;
    Ok(Some(n))
}

/// The number of the meet of the types at two numbers, which goes to the end of the list unless it is there already.
fn pair(
    alloc: Global,
    names: &[Items<Name>],
    set: &mut IndexSet<Ty>,
    shapes: &mut IndexSet<Shape>,
    rows: &[Items<Option<u16>>],
    j: usize,
    i: usize,
) -> Result<Option<u16>, LoadFault>
    requires numbered { IsNumbered names.now set.old.keys shapes.old.keys }
    requires fine { IsWithinLimits set.old.keys }
    requires right { AreMeets set.old.keys rows.now i }
    requires order { j < i }
    requires inside { i < length set.old.keys }
    ensures numbered { OnOk result (IsNumbered names.now set.new.keys shapes.new.keys) }
    ensures fine { OnOk result (IsWithinLimits set.new.keys) }
    ensures keys { OnOk result (set.new.keys ≡ pair_list set.old.keys j i) }
    ensures named { IfOk result (λ n. IsNamed set.new.keys n (pair_meet (slice_get set.old.keys j) (slice_get set.old.keys i))) }
    ensures fault { IfErr result (IsFault (pair_list set.old.keys j i)) }
{
    let met = met_of(alloc, shapes, rows, j, i)?;
    match met {
        Met::At(n) => Ok(Some(small(n))),
        Met::New(shape) => number_of_new(alloc, names, set, shapes, shape),
        Met::Apart => Ok(None),
    }
}

/// The numbers of the meets of the type at i and each type before it.
fn row(
    alloc: Global,
    names: &[Items<Name>],
    set: &mut IndexSet<Ty>,
    shapes: &mut IndexSet<Shape>,
    rows: &[Items<Option<u16>>],
    i: usize,
) -> Result<Items<Option<u16>>, LoadFault>
    requires numbered { IsNumbered names.now set.old.keys shapes.old.keys }
    requires fine { IsWithinLimits set.old.keys }
    requires right { AreMeets set.old.keys rows.now i }
    requires inside { i < length set.old.keys }
    ensures numbered { OnOk result (IsNumbered names.now set.new.keys shapes.new.keys) }
    ensures fine { OnOk result (IsWithinLimits set.new.keys) }
    ensures keys { OnOk result (set.new.keys ≡ with_row set.old.keys i) }
    ensures named { IfOk result (λ made. IsRow set.new.keys made i i) }
    ensures fault { IfErr result (IsFault (with_row set.old.keys i)) }
{
    let mut made = Items::new(alloc);
    for j in 0..i {
        let met = pair(alloc, names, set, shapes, rows, j, i)?;
        made.push(met)?;
    }
    Ok(made)
}

/// All rows: the list gets the meets of all its members, those of new ones too. The row of a number has the numbers of its meets with
/// each smaller number, or None where there is no meet. Refused where a meet is too large, or is one too many.
pub fn all_rows(
    alloc: Global,
    names: &[Items<Name>],
    set: &mut IndexSet<Ty>,
    shapes: &mut IndexSet<Shape>,
) -> Result<Vec<Items<Option<u16>>>, LoadFault>
    requires numbered { IsNumbered names.now set.old.keys shapes.old.keys }
    requires fine { IsWithinLimits set.old.keys }
    ensures numbered { OnOk result (IsNumbered names.now set.new.keys shapes.new.keys) }
    ensures fine { OnOk result (IsWithinLimits set.new.keys) }
    ensures closed { OnOk result ((types : List Ty) → set.old.keys ≡ first_types types → IsClosedList types set.new.keys) }
    ensures right { IfOk result (λ rows. AreMeets set.new.keys rows.items (length set.new.keys)) }
    ensures refused { IfErr result (λ e. (types : List Ty) → set.old.keys ≡ first_types types → IsRefusal types e) }

    // A list that its rows don't make longer stays as it is.
    ensures still { OnOk result (((n : ℕ) → with_row set.old.keys n ≡ set.old.keys) → set.new.keys ≡ set.old.keys) }
    ensures memory { IfErr result (λ e. ((n : ℕ) → with_row set.old.keys n ≡ set.old.keys) → e ≡ Memory) }
{
    let mut rows = Vec::new(alloc);
    let mut i = 0;
    while i < set.len() {
        let made = row(alloc, names, set, shapes, rows.as_slice(), i)?;
        rows.push(made)?;
        i += 1;
    }
    Ok(rows)
}
