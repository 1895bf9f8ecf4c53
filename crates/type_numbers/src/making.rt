ghost use Rattle.std.specs.Prelude.{◌≡◌, ◌≤◌, ◌<◌, List, [], map, IfOk, IfErr, length, Contains};
ghost use Rattle.mono_syntax.specs.Ty.{Ty};
ghost use Rattle.mono_tree.specs.ClosedList.{IsClosedList, AreDistinct, IsOrdered};
ghost use Rattle.mono_tree.specs.Static.{is_static};
ghost use Rattle.mono_tree.specs.TypeNumbers.{Names};
ghost use Rattle.type_shapes.specs.Limits.{IsWithinLimits};
ghost use Rattle.type_shapes.specs.Numbered.{IsNumbered};
ghost use Rattle.type_shapes.specs.Shows.{AreMeets};
ghost use Rattle.type_numbers.specs.Kept.{AreInRange, types_at};

use indexmap::IndexSet;
use mono_syntax::{LoadFault, Name, Ty, TypeNo};
use mono_tree::is_static;
use sqlite_items::Items;
use std::alloc::{AllocError, Global};
use type_shapes::{Shape, all_rows, put_numbered};

/// Types with their shapes, and the lists of field names that the shapes tell by number.
#[derive(Drop)]
pub struct ShapedTypes {
    pub names: Vec<Items<Name>>,
    pub set: IndexSet<Ty>,
    pub shapes: IndexSet<Shape>,
}

/// The same with the numbers of the meets: a row for each type, with an entry for each type before it.
#[derive(Drop)]
pub struct ClosedTypes {
    pub names: Vec<Items<Name>>,
    pub set: IndexSet<Ty>,
    pub shapes: IndexSet<Shape>,
    pub rows: Vec<Items<Option<u16>>>,
}

/// The types of a list, each with its shape.
pub fn with_shapes(alloc: Global, types: &[Ty]) -> Result<ShapedTypes, LoadFault>
    requires distinct { AreDistinct types.now }
    requires ordered { IsOrdered types.now }
    requires within { IsWithinLimits types.now }
    ensures types { IfOk result (λ n. n.set.keys ≡ types.now) }
    ensures numbered { IfOk result (λ n. IsNumbered n.names.items n.set.keys n.shapes.keys) }
{
    let mut names = Vec::new(alloc);
    let mut set = IndexSet::new(alloc);
    let mut shapes = IndexSet::new(alloc);
    for ty in types {
        put_numbered(alloc, &mut names, &mut set, &mut shapes, ty)?;
    }
    Ok(ShapedTypes { names, set, shapes })
}

/// The types of a closed list, each with its shape and its meets with the types before it.
pub fn closed_types(alloc: Global, types: &[Ty]) -> Result<ClosedTypes, LoadFault>
    requires closed { (given : List Ty) × IsClosedList given types.now }
    requires within { IsWithinLimits types.now }
    ensures types { IfOk result (λ t. t.set.keys ≡ types.now) }
    ensures numbered { IfOk result (λ t. IsNumbered t.names.items t.set.keys t.shapes.keys) }
    ensures meets { IfOk result (λ t. AreMeets t.set.keys t.rows.items (length t.set.keys)) }
{
    let shaped = with_shapes(alloc, types)?;
    let ShapedTypes {
        names,
        mut set,
        mut shapes,
    } = shaped;
    let rows = all_rows(alloc, names.as_slice(), &mut set, &mut shapes)?;
    Ok(ClosedTypes {
        names,
        set,
        shapes,
        rows,
    })
}

/// For each type whether it is static.
#[tactic(auto, using(mono_tree::proofs::AsComputed::as_computed))]
pub fn statics_of(alloc: Global, types: &[Ty]) -> Result<Vec<bool>, AllocError>
    ensures { IfOk result (λ statics. statics.items ≡ map is_static types.now) }
{
    let mut statics = Vec::new(alloc);
    for ty in types {
        statics.push(is_static(ty))?;
    }
    Ok(statics)
}

fn number_there(set: &IndexSet<Ty>, ty: &Ty) -> TypeNo
    requires there { Contains set.now.keys ty.now }
    requires few { length set.now.keys ≤ 4095 }
    ensures { Names set.now.keys result ty.now }
{
    match set.get_index_of(ty) {
        Some(at) => TypeNo(at as u16),
        None => unreachable!(),
    }
}

/// The numbers of some types of the set.
pub fn numbers_of(
    alloc: Global,
    set: &IndexSet<Ty>,
    types: &[Ty],
) -> Result<Vec<TypeNo>, AllocError>
    requires there { (t : Ty) → Contains types.now t → Contains set.now.keys t }
    requires few { length set.now.keys ≤ 4095 }
    ensures types { IfOk result (λ numbers. types_at set.now.keys numbers.items ≡ types.now) }
    ensures range { IfOk result (λ numbers. AreInRange (length set.now.keys) numbers.items) }
{
    let mut numbers = Vec::new(alloc);
    for ty in types {
        numbers.push(number_there(set, ty))?;
    }
    Ok(numbers)
}
