ghost use Rattle.std.specs.Prelude.{◌≡◌, IfOk, IfErr, OnOk};
ghost use Rattle.mono_tree.specs.ClosedList.{put_all, each_parts_first, IsClosedList};
ghost use Rattle.type_shapes.specs.Limits.{IsWithinLimits, IsFault, IsRefusal};
ghost use Rattle.type_shapes.specs.Numbered.{IsNumbered};

use crate::adding::add;
use indexmap::IndexSet;
use mono_syntax::{LoadFault, Name, Ty, TyKind};
use sqlite_items::Items;
use std::alloc::Global;
use type_shapes::{Shape, all_rows};

/// The types, each behind its parts.
#[tactic(auto, using(crate::proofs::FaultTurns::adding))]
fn add_each(
    alloc: Global,
    names: &mut Vec<Items<Name>>,
    set: &mut IndexSet<Ty>,
    shapes: &mut IndexSet<Shape>,
    types: &[Ty],
) -> Result<(), LoadFault>
    requires numbered { IsNumbered names.old.items set.old.keys shapes.old.keys }
    requires fine { IsWithinLimits set.old.keys }
    ensures numbered { OnOk result (IsNumbered names.new.items set.new.keys shapes.new.keys) }
    ensures keys { OnOk result (set.new.keys ≡ put_all set.old.keys (each_parts_first types.now)) }
    ensures fine { OnOk result (IsWithinLimits set.new.keys) }
    ensures fault { IfErr result (IsFault (put_all set.old.keys (each_parts_first types.now))) }
{
    for ty in types {
        add(alloc, names, set, shapes, ty)?;
    }
    Ok(())
}

/// The closed list of some types: the five base types and the given types, each behind its parts, and then the meets of each
/// member and those before it. Refused at 1:1 where a member of that list is too large, or is one too many, whichever comes first.
pub fn close(alloc: Global, types: &[Ty]) -> Result<IndexSet<Ty>, LoadFault>
    ensures closed { IfOk result (λ list. IsClosedList types.now list.keys) }
    ensures fine { IfOk result (λ list. IsWithinLimits list.keys) }
    ensures refused { IfErr result (IsRefusal types.now) }
{
    let base = [
        Ty { kind: TyKind::Dyn },
        Ty { kind: TyKind::Int },
        Ty { kind: TyKind::Bool },
        Ty { kind: TyKind::Str },
        Ty { kind: TyKind::Nil },
    ];
    let mut names = Vec::new(alloc);
    let mut set = IndexSet::new(alloc);
    let mut shapes = IndexSet::new(alloc);
    add_each(alloc, &mut names, &mut set, &mut shapes, &base)?;
    add_each(alloc, &mut names, &mut set, &mut shapes, types)?;
    let _rows = all_rows(alloc, names.as_slice(), &mut set, &mut shapes)?;
    Ok(set)
}
