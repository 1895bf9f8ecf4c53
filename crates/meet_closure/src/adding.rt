ghost use Rattle.std.specs.Prelude.{◌≡◌, IfErr, OnOk};
ghost use Rattle.mono_syntax.specs.TyView.{tys, fields};
ghost use Rattle.mono_tree.specs.ClosedList.{put_all, parts_first, parts_before, all_parts_first, field_parts_first};
ghost use Rattle.type_shapes.specs.Limits.{IsWithinLimits, IsFault};
ghost use Rattle.type_shapes.specs.Numbered.{IsNumbered};

use indexmap::IndexSet;
use mono_list::Shared;
use mono_syntax::{Field, LoadFault, Name, Ty, TyKind};
use sqlite_items::Items;
use std::alloc::Global;
use type_shapes::{Shape, put_numbered};

/// A type goes to the end of the list behind its parts, each unless it is there already.
#[cycle(adding)]
#[tactic(auto, using(crate::proofs::FaultTurns::adding, mono_syntax::proofs::Parts::parts))]
pub fn add(
    alloc: Global,
    names: &mut Vec<Items<Name>>,
    set: &mut IndexSet<Ty>,
    shapes: &mut IndexSet<Shape>,
    ty: &Ty,
) -> Result<(), LoadFault>
    requires numbered { IsNumbered names.old.items set.old.keys shapes.old.keys }
    requires fine { IsWithinLimits set.old.keys }
    ensures numbered { OnOk result (IsNumbered names.new.items set.new.keys shapes.new.keys) }
    ensures keys { OnOk result (set.new.keys ≡ put_all set.old.keys (parts_first ty.now)) }
    ensures fine { OnOk result (IsWithinLimits set.new.keys) }
    ensures fault { IfErr result (IsFault (put_all set.old.keys (parts_first ty.now))) }
{
    add_parts(alloc, names, set, shapes, ty)?;
    put_numbered(alloc, names, set, shapes, ty)
}

/// The parts of a type.
#[cycle(adding)]
#[tactic(auto, using(crate::proofs::FaultTurns::adding, mono_syntax::proofs::Parts::parts))]
fn add_parts(
    alloc: Global,
    names: &mut Vec<Items<Name>>,
    set: &mut IndexSet<Ty>,
    shapes: &mut IndexSet<Shape>,
    ty: &Ty,
) -> Result<(), LoadFault>
    requires numbered { IsNumbered names.old.items set.old.keys shapes.old.keys }
    requires fine { IsWithinLimits set.old.keys }
    ensures numbered { OnOk result (IsNumbered names.new.items set.new.keys shapes.new.keys) }
    ensures keys { OnOk result (set.new.keys ≡ put_all set.old.keys (parts_before ty.now)) }
    ensures fine { OnOk result (IsWithinLimits set.new.keys) }
    ensures fault { IfErr result (IsFault (put_all set.old.keys (parts_before ty.now))) }
{
    match &ty.kind {
        TyKind::Fun(params, out) => {
            add_all(alloc, names, set, shapes, params.as_slice())?;
            add(alloc, names, set, shapes, out.get())
        }
        TyKind::Obj(members) => add_fields(alloc, names, set, shapes, members.as_slice()),
        _ => Ok(()),
    }
}

/// The types of parameters.
#[cycle(adding)]
#[tactic(auto, using(crate::proofs::FaultTurns::adding, mono_syntax::proofs::Parts::parts))]
fn add_all(
    alloc: Global,
    names: &mut Vec<Items<Name>>,
    set: &mut IndexSet<Ty>,
    shapes: &mut IndexSet<Shape>,
    types: &[Shared<Ty>],
) -> Result<(), LoadFault>
    requires numbered { IsNumbered names.old.items set.old.keys shapes.old.keys }
    requires fine { IsWithinLimits set.old.keys }
    ensures numbered { OnOk result (IsNumbered names.new.items set.new.keys shapes.new.keys) }
    ensures keys { OnOk result (set.new.keys ≡ put_all set.old.keys (all_parts_first (tys types.now))) }
    ensures fine { OnOk result (IsWithinLimits set.new.keys) }
    ensures fault { IfErr result (IsFault (put_all set.old.keys (all_parts_first (tys types.now)))) }
{
    for ty in types {
        add(alloc, names, set, shapes, ty.get())?;
    }
    Ok(())
}

/// The types of fields.
#[cycle(adding)]
#[tactic(auto, using(crate::proofs::FaultTurns::adding, mono_syntax::proofs::Parts::parts))]
fn add_fields(
    alloc: Global,
    names: &mut Vec<Items<Name>>,
    set: &mut IndexSet<Ty>,
    shapes: &mut IndexSet<Shape>,
    members: &[Field],
) -> Result<(), LoadFault>
    requires numbered { IsNumbered names.old.items set.old.keys shapes.old.keys }
    requires fine { IsWithinLimits set.old.keys }
    ensures numbered { OnOk result (IsNumbered names.new.items set.new.keys shapes.new.keys) }
    ensures keys { OnOk result (set.new.keys ≡ put_all set.old.keys (field_parts_first (fields members.now))) }
    ensures fine { OnOk result (IsWithinLimits set.new.keys) }
    ensures fault { IfErr result (IsFault (put_all set.old.keys (field_parts_first (fields members.now)))) }
{
    for member in members {
        add(alloc, names, set, shapes, member.ty.get())?;
    }
    Ok(())
}
