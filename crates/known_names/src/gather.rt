ghost use Rattle.std.specs.Prelude.{◌≡◌, [], IfOk, slice_get};
ghost use Rattle.script_rules.specs.Scoping.{IsScope};
ghost use Rattle.known_names.specs.computed.Gathered.{with_name, with_class_type, class_types, with_function_type, function_types, with_class, classes_from, known_with, named, values_of, block_values, result_type, declared_result, local_at, script_names, bodies_from, function_names, main_names, gathered};
ghost use Rattle.known_names.specs.IsKnown.{IsKnownScript};

use crate::annotations::known_fields;
use crate::known::{Known, KnownClass, KnownScript, Local};
use crate::known_classes::KnownClasses;
use crate::named::NamedTypes;
use crate::types::{new_type, type_at};
use mono_list::Shared;
use mono_syntax::{Item, Name, NamedType, Scoped, Ty, TyAt, TyKind, TypedName};
use sqlite_items::Items;
use std::alloc::{AllocError, Global};

/// One more name, whose type stands at the next place.
fn with_name(
    alloc: Global,
    types: &[Shared<Ty>],
    places: &[TyAt],
    done: NamedTypes,
    name: &Name,
) -> Result<NamedTypes, AllocError>
    ensures { IfOk result (λ more. more ≡ with_name types.now places.now done name.now) }
{
    let ty = type_at(alloc, types, places.get(done.len()))?;
    let name = name.share()?;
    done.push(alloc, NamedType { name, ty })
}

fn with_class_type(
    alloc: Global,
    types: &[Shared<Ty>],
    places: &[TyAt],
    done: NamedTypes,
    item: &Item,
) -> Result<NamedTypes, AllocError>
    ensures { IfOk result (λ more. more ≡ with_class_type types.now places.now done item.now) }
{
    match item {
        Item::Class(class) => with_name(alloc, types, places, done, &class.name.text),
        _ => Ok(done),
    }
}

/// The classes' types, which stand at these places.
fn class_types(
    alloc: Global,
    types: &[Shared<Ty>],
    places: &[TyAt],
    items: &[Item],
) -> Result<NamedTypes, AllocError>
    ensures { IfOk result (λ all. all ≡ class_types types.now places.now [] items.now) }
{
    let mut done = NamedTypes::new(alloc);
    for item in items {
        done = with_class_type(alloc, types, places, done, item)?;
    }
    Ok(done)
}

fn with_function_type(
    alloc: Global,
    types: &[Shared<Ty>],
    places: &[TyAt],
    done: NamedTypes,
    item: &Item,
) -> Result<NamedTypes, AllocError>
    ensures { IfOk result (λ more. more ≡ with_function_type types.now places.now done item.now) }
{
    match item {
        Item::Def(function) => with_name(alloc, types, places, done, &function.name.text),
        _ => Ok(done),
    }
}

/// The functions' types, which stand at these places.
fn function_types(
    alloc: Global,
    types: &[Shared<Ty>],
    places: &[TyAt],
    items: &[Item],
) -> Result<NamedTypes, AllocError>
    ensures { IfOk result (λ all. all ≡ function_types types.now places.now [] items.now) }
{
    let mut done = NamedTypes::new(alloc);
    for item in items {
        done = with_function_type(alloc, types, places, done, item)?;
    }
    Ok(done)
}

fn with_class(
    alloc: Global,
    annotations: &NamedTypes,
    types: &[Shared<Ty>],
    places: &[TyAt],
    done: KnownClasses,
    item: &Item,
) -> Result<KnownClasses, AllocError>
    ensures { IfOk result (λ more. more ≡ with_class annotations.now types.now places.now done item.now) }
{
    let Item::Class(class) = item else {
        return Ok(done);
    };
    let ty = type_at(alloc, types, places.get(done.len()))?;
    let fields = known_fields(alloc, annotations, class.fields.as_slice())?;
    let name = class.name.text.share()?;
    done.push(alloc, KnownClass { name, fields, ty })
}

/// The classes, whose types stand at these places.
fn classes(
    alloc: Global,
    annotations: &NamedTypes,
    types: &[Shared<Ty>],
    places: &[TyAt],
    items: &[Item],
) -> Result<KnownClasses, AllocError>
    ensures { IfOk result (λ all. all ≡ classes_from annotations.now types.now places.now [] items.now) }
{
    let mut done = KnownClasses::new(alloc);
    for item in items {
        done = with_class(alloc, annotations, types, places, done, item)?;
    }
    Ok(done)
}

/// All that is known, where the classes have these types.
fn known_with(alloc: Global, scoped: &Scoped, annotations: NamedTypes) -> Result<Known, AllocError>
    ensures { IfOk result (λ known. known ≡ known_with scoped.now annotations) }
{
    let items = scoped.script.get().items.get().as_slice();
    let types = scoped.types.as_slice();
    let places = scoped.classes.as_slice();
    let classes = classes(alloc, &annotations, types, places, items)?;
    let functions = function_types(alloc, types, scoped.functions.as_slice(), items)?;
    Ok(Known {
        annotations,
        classes,
        functions,
    })
}

/// What is known of the names that stand for the same in the whole script.
fn script_names(alloc: Global, scoped: &Scoped) -> Result<Known, AllocError>
    ensures { IfOk result (λ known. known ≡ script_names scoped.now) }
{
    let items = scoped.script.get().items.get().as_slice();
    let places = scoped.classes.as_slice();
    let annotations = class_types(alloc, scoped.types.as_slice(), places, items)?;
    known_with(alloc, scoped, annotations)
}

fn named(alloc: Global, types: &[Shared<Ty>], name: &TypedName) -> Result<NamedType, AllocError>
    ensures { IfOk result (λ known. known ≡ named types.now name.now) }
{
    let ty = type_at(alloc, types, Some(&name.ty))?;
    let name = name.name.share()?;
    Ok(NamedType { name, ty })
}

/// Names with their types.
fn values_of(
    alloc: Global,
    types: &[Shared<Ty>],
    names: &[TypedName],
) -> Result<NamedTypes, AllocError>
    ensures { IfOk result (λ all. all ≡ values_of types.now names.now) }
{
    let mut all = NamedTypes::new(alloc);
    for name in names {
        all = all.push(alloc, named(alloc, types, name)?)?;
    }
    Ok(all)
}

/// The names of a block with their types.
fn block_values(alloc: Global, scoped: &Scoped, block: usize) -> Result<NamedTypes, AllocError>
    ensures { IfOk result (λ all. all ≡ block_values scoped.now.types (slice_get scoped.now.blocks block)) }
{
    match scoped.blocks.as_slice().get(block) {
        Some(names) => values_of(alloc, scoped.types.as_slice(), names.values.as_slice()),
        None => Ok(NamedTypes::new(alloc)),
    }
}

/// What this block may name at its start, where its function has this result.
fn local_at(
    alloc: Global,
    scoped: &Scoped,
    block: usize,
    declared: Option<Shared<Ty>>,
) -> Result<Local, AllocError>
    ensures { IfOk result (λ names. names ≡ local_at scoped.now block declared) }
{
    let values = block_values(alloc, scoped, block)?;
    let threads = NamedTypes::new(alloc);
    Ok(Local {
        values,
        threads,
        result: declared,
    })
}

/// What a call of this type gives.
fn result_type(alloc: Global, ty: &Ty) -> Result<Shared<Ty>, AllocError>
    ensures { IfOk result (λ found. found ≡ result_type ty.now) }
{
    match &ty.kind {
        TyKind::Fun(_, out) => out.share(),
        _ => new_type(alloc, TyKind::Dyn),
    }
}

/// The declared result of a function.
fn declared_result(
    alloc: Global,
    scoped: &Scoped,
    function: usize,
) -> Result<Shared<Ty>, AllocError>
    ensures { IfOk result (λ found. found ≡ declared_result scoped.now function) }
{
    let place = scoped.functions.as_slice().get(function);
    let declared = type_at(alloc, scoped.types.as_slice(), place)?;
    result_type(alloc, declared.get())
}

/// What the body of a function may name at its start. Functions are counted from 0, in source order.
fn function_names(alloc: Global, scoped: &Scoped, function: usize) -> Result<Local, AllocError>
    ensures { IfOk result (λ names. names ≡ function_names scoped.now function) }
{
    let declared = declared_result(alloc, scoped, function)?;
    local_at(alloc, scoped, function, Some(declared))
}

/// What the bodies of the functions may name, whose types stand at these places.
fn bodies(alloc: Global, scoped: &Scoped, places: &[TyAt]) -> Result<Items<Local>, AllocError>
    ensures { IfOk result (λ all. all ≡ bodies_from scoped.now [] places.now) }
{
    let mut all = Items::new(alloc);
    for _ in places {
        let names = function_names(alloc, scoped, all.len())?;
        all.push(names)?;
    }
    Ok(all)
}

/// What the main block may name at its start.
fn main_names(alloc: Global, scoped: &Scoped) -> Result<Local, AllocError>
    ensures { IfOk result (λ names. names ≡ main_names scoped.now) }
{
    // The main block stands behind those of the functions.
    local_at(alloc, scoped, scoped.functions.len(), None)
}

fn gathered(alloc: Global, scoped: &Scoped) -> Result<KnownScript, AllocError>
    ensures { IfOk result (λ known. known ≡ gathered scoped.now) }
{
    let names = script_names(alloc, scoped)?;
    let bodies = bodies(alloc, scoped, scoped.functions.as_slice())?;
    let main = main_names(alloc, scoped)?;
    Ok(KnownScript {
        names,
        bodies,
        main,
    })
}

/// What is known of all names of a script.
pub fn known_in(alloc: Global, scoped: &Scoped) -> Result<KnownScript, AllocError>
    requires scope { IsScope scoped.now.script scoped.now }
    ensures { IfOk result (IsKnownScript scoped.now.script) }
{
    gathered(alloc, scoped)
}
