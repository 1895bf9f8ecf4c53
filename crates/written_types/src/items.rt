ghost use Rattle.std.specs.Prelude.{◌≡◌, ◌++◌, IfOk, slice_get};
ghost use Rattle.script_rules.specs.FirstFault.{IsFaultless};
ghost use Rattle.script_rules.specs.ScopeFaults.{ScopeFault};
ghost use Rattle.script_rules.specs.Scoping.{IsScope};
ghost use Rattle.script_rules.specs.SourceParts.{body_parts};
ghost use Rattle.written_types.specs.ScriptTypes.{AreScriptTypes};
ghost use Rattle.written_types.specs.computed.TypesOnto.{types_onto};
ghost use Rattle.written_types.specs.computed.WrittenItems.{class_onto, function_onto, body_onto, line_onto, item_onto, items_onto, nothing};

use crate::walk::stmt_types;
use known_names::{Known, NamedTypes, known_in};
use mono_list::Shared;
use mono_syntax::{CastScript, Item, Stmt, Ty};
use sqlite_items::Items;
use std::alloc::{AllocError, Global};

/// The types so far, and how many classes and functions are defined so far.
#[derive(Drop)]
pub(crate) struct Collected {
    pub types: Items<Shared<Ty>>,
    pub classes: usize,
    pub functions: usize,
}

/// The type of the next class.
fn class_type(known: &Known, done: Collected) -> Result<Collected, AllocError>
    ensures { IfOk result (λ r. r ≡ class_onto done (slice_get known.now.classes done.classes)) }
{
    let Collected {
        mut types,
        classes,
        functions,
    } = done;
    let Some(class) = known.classes.as_slice().get(classes) else {
        return Ok(Collected {
            types,
            classes,
            functions,
        });
    };
    types.push(class.ty.share()?)?;
    Ok(Collected {
        types,
        classes: classes + 1,
        functions,
    })
}

/// The declared type of the next function.
fn function_type(known: &Known, done: Collected) -> Result<Collected, AllocError>
    ensures { IfOk result (λ r. r ≡ function_onto done (slice_get known.now.functions done.functions)) }
{
    let Collected {
        mut types,
        classes,
        functions,
    } = done;
    let Some(function) = known.functions.as_slice().get(functions) else {
        return Ok(Collected {
            types,
            classes,
            functions,
        });
    };
    types.push(function.ty.share()?)?;
    Ok(Collected {
        types,
        classes,
        functions: functions + 1,
    })
}

/// The types that a function's body writes.
fn body_types(
    alloc: Global,
    classes: &NamedTypes,
    done: Items<Shared<Ty>>,
    body: &[Stmt],
) -> Result<Items<Shared<Ty>>, AllocError>
    ensures { IfOk result (λ r. r ≡ types_onto classes.now done (body_parts body.now)) }
{
    let mut done = done;
    for s in body {
        done = stmt_types(alloc, classes, done, s)?;
    }
    Ok(done)
}

/// The same, behind what is collected.
fn with_body(
    alloc: Global,
    names: &NamedTypes,
    done: Collected,
    body: &[Stmt],
) -> Result<Collected, AllocError>
    ensures { IfOk result (λ r. r ≡ body_onto names.now done body.now) }
{
    let Collected {
        types,
        classes,
        functions,
    } = done;
    let types = body_types(alloc, names, types, body)?;
    Ok(Collected {
        types,
        classes,
        functions,
    })
}

/// The types that a statement of the main block writes.
fn with_line(
    alloc: Global,
    names: &NamedTypes,
    done: Collected,
    s: &Stmt,
) -> Result<Collected, AllocError>
    ensures { IfOk result (λ r. r ≡ line_onto names.now done s.now) }
{
    let Collected {
        types,
        classes,
        functions,
    } = done;
    let types = stmt_types(alloc, names, types, s)?;
    Ok(Collected {
        types,
        classes,
        functions,
    })
}

/// The types that an item writes.
fn with_item(
    alloc: Global,
    known: &Known,
    done: Collected,
    item: &Item,
) -> Result<Collected, AllocError>
    ensures { IfOk result (λ r. r ≡ item_onto known.now done item.now) }
{
    match item {
        Item::Class(_) => class_type(known, done),
        Item::Def(function) => {
            let done = function_type(known, done)?;
            with_body(alloc, &known.annotations, done, function.body.as_slice())
        }
        Item::Stmt(s) => with_line(alloc, &known.annotations, done, s),
    }
}

/// The types that items write, in their order.
fn items_types(alloc: Global, known: &Known, items: &[Item]) -> Result<Collected, AllocError>
    ensures { IfOk result (λ r. r ≡ items_onto known.now nothing items.now) }
{
    let mut done = Collected {
        types: Items::new(alloc),
        classes: 0,
        functions: 0,
    };
    for item in items {
        done = with_item(alloc, known, done, item)?;
    }
    Ok(done)
}

/// The types that a script writes, in source order: those of its classes and functions at their definitions, behind a function's those
/// of the annotations and cast targets of its body, and those of the main block at their place. A type may come more than once.
pub fn script_types(alloc: Global, script: &CastScript) -> Result<Items<Shared<Ty>>, AllocError>
    // Where a name is wrong, an annotation may write no type.
    requires names { IsFaultless (ScopeFault script.now.scoped.script) }
    requires scope { IsScope script.now.scoped.script script.now.scoped }
    ensures { IfOk result (AreScriptTypes script.now.scoped.script) }
{
    let scoped = script.scoped.get();
    let known = known_in(alloc, scoped)?;
    let items = scoped.script.get().items.get().as_slice();
    let done = items_types(alloc, &known.names, items)?;
    Ok(done.types)
}
