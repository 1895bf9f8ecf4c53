ghost use Rattle.std.specs.Prelude.{◌≡◌, Some, slice_get, IfOk, IfSome, IsSome, MatchOption, IsTrue, ◌↔◌};
ghost use Rattle.mono_syntax.specs.Ty.{Ty};
ghost use Rattle.script_rules.specs.Scoping.{class_list, StandsAt};
ghost use Rattle.script_rules.specs.Writes.{Writes, WritesAny, IsFunctionType};
ghost use Rattle.class_types.specs.Known.{HaveTypes};
ghost use Rattle.script_rules.specs.Definitions.{classes_of};
ghost use Rattle.class_types.specs.computed.Made.{names_of_classes, AreOwnTypes};
ghost use Rattle.class_types.specs.Holds.{Holds, Extends};

use crate::made::{function_made, type_any, type_made};
use crate::names::names_of;
use crate::place::{Positions, all_placed, base_types, placed};
use crate::settle::{classes_of, settled};
use mono_list::Shared;
use mono_syntax::{Ann, FuncDef, Item, Script, Ty, TyAt};
use name_places::NamePlaces;
use sqlite_items::Items;
use std::alloc::{AllocError, Global};
use type_list::TypeList;

/// The types of a script, each once: the base types, those of its classes, and what is added. `classes` has the position
/// of each class's type, in source order.
#[derive(Drop)]
pub struct ClassTypes {
    pub script: Script,
    pub types: TypeList,
    pub classes: Items<TyAt>,
    names: NamePlaces,
    own: Items<Option<Shared<Ty>>>,
}

/// The types of the classes, where each has one. Types are made as deep as the classes nest, which `size_refusal` bounds.
pub fn class_types(alloc: Global, script: &Script) -> Result<Option<ClassTypes>, AllocError>
    ensures found { IfOk result (λ r. IsSome r ↔ HaveTypes (class_list script.now) (class_list script.now)) }
    ensures known { IfOk result (λ r. IfSome r (λ k. (k.script ≡ script.now) × Holds k)) }
{
    let (names, own) = own_types(alloc, script.items.get().as_slice())?;
    let bases = base_types(alloc)?;
    match all_placed(alloc, bases, own.as_slice())? {
        Some(positions) => {
            let known = table(script, positions, names, own)?;
            Ok(Some(known))
        }
        None => Ok(None),
    }
}

/// The names of the classes, and the types that their fields give.
fn own_types(
    alloc: Global,
    items: &[Item],
) -> Result<(NamePlaces, Items<Option<Shared<Ty>>>), AllocError>
    ensures names { IfOk result (λ r. r.0 ≡ names_of_classes (classes_of items.now)) }
    ensures own { IfOk result (λ r. AreOwnTypes (classes_of items.now) r.1) }
{
    let classes = classes_of(alloc, items)?;
    let names = names_of(alloc, classes.as_slice())?;
    let own = settled(alloc, &names, classes.as_slice())?;
    Ok((names, own))
}

fn table(
    script: &Script,
    positions: Positions,
    names: NamePlaces,
    own: Items<Option<Shared<Ty>>>,
) -> Result<ClassTypes, AllocError>
    ensures script { IfOk result (λ r. r.script ≡ script.now) }
    ensures types { IfOk result (λ r. r.types ≡ positions.types) }
    ensures classes { IfOk result (λ r. r.classes ≡ positions.at) }
    ensures names { IfOk result (λ r. r.names ≡ names) }
    ensures own { IfOk result (λ r. r.own ≡ own) }
{
    let script = Script {
        items: script.items.share()?,
    };
    let Positions { types, at: classes } = positions;
    Ok(ClassTypes {
        script,
        types,
        classes,
        names,
        own,
    })
}

/// The position of a type, which is added where it isn't there.
fn added(known: ClassTypes, ty: Shared<Ty>) -> Result<(TyAt, ClassTypes), AllocError>
    requires { Holds known }
    ensures at { IfOk result (λ r. slice_get r.1.types r.0.0 ≡ Some ty) }
    ensures keeps { IfOk result (λ r. Extends known r.1) }
{
    let ClassTypes {
        script,
        types,
        classes,
        names,
        own,
    } = known;
    let (at, types) = placed(types, ty)?;
    Ok((
        at,
        ClassTypes {
            script,
            types,
            classes,
            names,
            own,
        },
    ))
}

/// The position of the type that an annotation writes, where it writes one. The type is added where it isn't there.
pub fn written(
    alloc: Global,
    known: ClassTypes,
    ann: &Ann,
) -> Result<(Option<TyAt>, ClassTypes), AllocError>
    requires { Holds known }
    ensures found { IfOk result (λ r. MatchOption r.0 ((t : Ty) → Writes (class_list known.script) ann.now t → ⊥) (λ at. StandsAt r.1.types at (Writes (class_list known.script) ann.now))) }
    ensures keeps { IfOk result (λ r. Extends known r.1) }
{
    match type_made(alloc, &known.names, known.own.as_slice(), ann)? {
        Some(ty) => {
            let (at, known) = added(known, ty)?;
            Ok((Some(at), known))
        }
        None => Ok((None, known)),
    }
}

/// The same for an annotation that need not stand: `Dyn` where there is none.
pub fn written_any(
    alloc: Global,
    known: ClassTypes,
    ann: &Option<Ann>,
) -> Result<(Option<TyAt>, ClassTypes), AllocError>
    requires { Holds known }
    ensures found { IfOk result (λ r. MatchOption r.0 ((t : Ty) → WritesAny (class_list known.script) ann.now t → ⊥) (λ at. StandsAt r.1.types at (WritesAny (class_list known.script) ann.now))) }
    ensures keeps { IfOk result (λ r. Extends known r.1) }
{
    match type_any(alloc, &known.names, known.own.as_slice(), ann)? {
        Some(ty) => {
            let (at, known) = added(known, ty)?;
            Ok((Some(at), known))
        }
        None => Ok((None, known)),
    }
}

/// The position of a function's declared type, where its annotations write types. It is added where it isn't there.
pub fn function_type(
    alloc: Global,
    known: ClassTypes,
    function: &FuncDef,
) -> Result<(Option<TyAt>, ClassTypes), AllocError>
    requires { Holds known }
    ensures found { IfOk result (λ r. MatchOption r.0 ((t : Ty) → IsFunctionType (class_list known.script) function.now t → ⊥) (λ at. StandsAt r.1.types at (IsFunctionType (class_list known.script) function.now))) }
    ensures keeps { IfOk result (λ r. Extends known r.1) }
{
    match function_made(alloc, &known.names, known.own.as_slice(), function)? {
        Some(ty) => {
            let (at, known) = added(known, ty)?;
            Ok((Some(at), known))
        }
        None => Ok((None, known)),
    }
}
