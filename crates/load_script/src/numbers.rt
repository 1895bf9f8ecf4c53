ghost use Rattle.std.specs.Prelude.{◌≡◌, List, IfOk, IfErr, map, take};
ghost use Rattle.mono_syntax.specs.declared.refusal.Refusal.{Refusal};
ghost use Rattle.mono_syntax.specs.Ty.{Ty};
ghost use Rattle.mono_tree.specs.ClosedList.{IsClosedList};
ghost use Rattle.mono_tree.specs.TypedPrograms.{IsTypedProgram};
ghost use Rattle.program_code.specs.Counts.{IsTooMany, AreFew, most_classes};
ghost use Rattle.program_code.specs.SameScript.{IsProgram};
ghost use Rattle.program_code.specs.TypesIn.{AreTypesIn};
ghost use Rattle.script_rules.specs.LoadFaults.{IsFault, Refuses};
ghost use Rattle.type_shapes.specs.Limits.{IsWithinLimits};

use indexmap::IndexSet;
use mono_syntax::{CastClass, CastScript, LoadFault, Ty};
use mono_tree::copy_type;
use program_code::{MOST_CLASSES, Program, number};
use sqlite_items::Items;
use std::alloc::{AllocError, Global};
use type_numbers::TypeTable;

/// The first of some classes, at most so many.
fn first_classes(classes: &[CastClass], most: usize) -> &[CastClass]
    ensures { result.now ≡ take most classes.now }
{
    if classes.len() > most {
        &classes[..most]
    } else {
        classes
    }
}

/// The types of classes, each one's parts shared.
fn class_types(alloc: Global, classes: &[CastClass]) -> Result<Items<Ty>, AllocError>
    ensures { IfOk result (λ own. own ≡ map (λ c. c.ty) classes.now) }
{
    let mut own = Items::new(alloc);
    for class in classes {
        own.push(copy_type(alloc, class.ty.get())?)?;
    }
    Ok(own)
}

/// A script with its casts whose types are closed: it gets its numbers.
pub fn number_closed(
    alloc: Global,
    script: &CastScript,
    closed: IndexSet<Ty>,
) -> Result<Program, LoadFault>
    requires typed { IsTypedProgram script.now }
    requires closed { (written : List Ty) × IsClosedList written closed.keys }
    requires within { IsWithinLimits closed.keys }
    requires types { AreTypesIn closed.keys script.now }
    ensures same { IfOk result (IsProgram script.now closed.keys) }
    ensures few { IfOk result (λ p. AreFew script.now) }
    ensures refused { IfErr result (IsFault (IsTooMany script.now)) }
    ensures refuses { (r : Refusal) → IsTooMany script.now r → Refuses result r }
{
    let first = first_classes(script.classes.as_slice(), MOST_CLASSES);
    let classes = class_types(alloc, first)?;
    let table = TypeTable::new(alloc, closed, classes.as_slice())?;
    number(alloc, script, table)
}
