ghost use Rattle.std.specs.Prelude.{◌≡◌, Contains, false, IfErr, OnOk};
ghost use Rattle.std.specs.List.{list_any};
ghost use Rattle.mono_syntax.specs.computed.TyEq.{ty_eq};
ghost use Rattle.mono_syntax.specs.Ty.{Ty};
ghost use Rattle.mono_tree.specs.ClosedList.{IsPart, put};
ghost use Rattle.mono_tree.specs.Sizes.{IsTooLarge};
ghost use Rattle.type_shapes.specs.Limits.{IsWithinLimits, refused, IsFault};
ghost use Rattle.type_shapes.specs.Numbered.{IsNumbered};

use crate::limits::MOST_TYPES;
use crate::measure::is_too_large;
use crate::numbering::shape_of;
use crate::shape::Shape;
use indexmap::IndexSet;
use mono_syntax::{LoadFault, Name, Place, Reason, Refusal, Ty};
use mono_tree::copy_type;
use sqlite_items::Items;
use std::alloc::Global;

/// A refusal of types, which stands at the script's first character.
pub fn refusal(reason: Reason) -> LoadFault
    ensures { result ≡ refused reason }
{
    let place = Place { line: 1, column: 1 };
    LoadFault::Refused(Refusal { place, reason })
}

/// A type that isn't too large goes to the end of the list, unless it is there already. Refused where it is one too many.
pub fn put_small(set: &mut IndexSet<Ty>, ty: Ty) -> Result<(), LoadFault>
    requires fine { IsWithinLimits set.old.keys }
    requires small { IsTooLarge ty → ⊥ }
    ensures keys { OnOk result (set.new.keys ≡ put set.old.keys ty) }
    ensures fine { OnOk result (IsWithinLimits set.new.keys) }
    ensures fault { IfErr result (IsFault (put set.old.keys ty)) }
{
    let added = set.insert(ty)?;
    if !added {
        return Ok(());
    }
    if set.len() > MOST_TYPES {
        return Err(refusal(Reason::TooManyTypes));
    }
    Ok(())
}

/// The same of a type that is not there.
fn put_new(
    alloc: Global,
    names: &mut Vec<Items<Name>>,
    set: &mut IndexSet<Ty>,
    shapes: &mut IndexSet<Shape>,
    ty: &Ty,
) -> Result<(), LoadFault>
    requires numbered { IsNumbered names.old.items set.old.keys shapes.old.keys }
    requires fine { IsWithinLimits set.old.keys }
    requires parts { (p : Ty) → IsPart p ty.now → Contains set.old.keys p }
    requires absent { list_any (ty_eq ty.now) set.old.keys ≡ false }
    ensures numbered { OnOk result (IsNumbered names.new.items set.new.keys shapes.new.keys) }
    ensures keys { OnOk result (set.new.keys ≡ put set.old.keys ty.now) }
    ensures fine { OnOk result (IsWithinLimits set.new.keys) }
    ensures fault { IfErr result (IsFault (put set.old.keys ty.now)) }
{
    if is_too_large(ty) {
        return Err(refusal(Reason::TypeTooLarge));
    }
    let shape = shape_of(alloc, names, set, ty)?;
    let copy = copy_type(alloc, ty)?;
    put_small(set, copy)?;
    shapes.insert(shape)?;
    Ok(())
}

/// A type whose parts are in the list goes to its end with its shape, unless it is there already. Refused where the type is over the
/// limits, or is one too many.
pub fn put_numbered(
    alloc: Global,
    names: &mut Vec<Items<Name>>,
    set: &mut IndexSet<Ty>,
    shapes: &mut IndexSet<Shape>,
    ty: &Ty,
) -> Result<(), LoadFault>
    requires numbered { IsNumbered names.old.items set.old.keys shapes.old.keys }
    requires fine { IsWithinLimits set.old.keys }
    requires parts { (p : Ty) → IsPart p ty.now → Contains set.old.keys p }
    ensures numbered { OnOk result (IsNumbered names.new.items set.new.keys shapes.new.keys) }
    ensures keys { OnOk result (set.new.keys ≡ put set.old.keys ty.now) }
    ensures fine { OnOk result (IsWithinLimits set.new.keys) }
    ensures fault { IfErr result (IsFault (put set.old.keys ty.now)) }
{
    if set.contains(ty) {
        return Ok(());
    }
    put_new(alloc, names, set, shapes, ty)
}
