ghost use Rattle.std.specs.Prelude.{◌≡◌, ◌∷◌, IfOk, map};
ghost use Rattle.mono_syntax.specs.declared.tree.Item.TheVariants as item;
ghost use Rattle.script_rules.specs.Scoping.{IsScope};
ghost use Rattle.static_types.specs.Typing.{IsTyping};
ghost use Rattle.cast_rules.specs.HasCasts.{HasCasts};
ghost use Rattle.cast_insert.specs.computed.Scripted.{with_function, with_item, items_made, nothing_made, with_sites, no_sites, class_of, script_of, script_made};

use crate::functions::{block_of, function_made};
use crate::lines::line_inserted;
use crate::numbering::table_of;
use crate::states::{Made, State};
use known_names::{Known, KnownClass, KnownScript, Local, known_in};
use mono_list::{Shared, Stack};
use mono_syntax::{CastClass, CastScript, Field, FuncDef, Item, Name, Scoped, Stmt, Typed};
use sqlite_items::Items;
use std::alloc::{AllocError, Global};

// ---- items

/// A function whose body may name this.
fn function_behind(
    alloc: Global,
    known: &Known,
    made: Made,
    local: Local,
    function: &FuncDef,
) -> Result<Option<Made>, AllocError>
    ensures { IfOk result (λ m. m ≡ with_function known.now made (local ∷ made.bodies) function.now) }
{
    let Made {
        mut functions,
        lines,
        state,
        bodies,
    } = made;
    let Some(named) = known.functions.as_slice().get(functions.len()) else {
        return Ok(None);
    };
    let State { local: main, sites } = state;
    let Some(done) = function_made(alloc, known, local, function, &named.ty, sites)? else {
        return Ok(None);
    };
    functions.push(done.function)?;
    let state = State {
        local: main,
        sites: done.sites,
    };
    Ok(Some(Made {
        functions,
        lines,
        state,
        bodies,
    }))
}

/// One more function.
fn with_function(
    alloc: Global,
    known: &Known,
    made: Made,
    function: &FuncDef,
) -> Result<Option<Made>, AllocError>
    ensures { IfOk result (λ m. m ≡ with_function known.now made made.bodies function.now) }
{
    let Made {
        functions,
        lines,
        state,
        mut bodies,
    } = made;
    match bodies.pop() {
        Some(local) => {
            let rest = Made {
                functions,
                lines,
                state,
                bodies,
            };
            function_behind(alloc, known, rest, local, function)
        }
        None => Ok(None),
    }
}

/// One more statement of the main block.
fn with_statement(
    alloc: Global,
    known: &Known,
    made: Made,
    s: &Stmt,
) -> Result<Option<Made>, AllocError>
    ensures { IfOk result (λ m. m ≡ with_item known.now made (item.Stmt s.now)) }
{
    let Made {
        functions,
        mut lines,
        state,
        bodies,
    } = made;
    let Some(line) = line_inserted(alloc, known, state, s)? else {
        return Ok(None);
    };
    lines.push(line.statement)?;
    let state = line.state;
    Ok(Some(Made {
        functions,
        lines,
        state,
        bodies,
    }))
}

fn with_item(
    alloc: Global,
    known: &Known,
    made: Made,
    item: &Item,
) -> Result<Option<Made>, AllocError>
    ensures { IfOk result (λ m. m ≡ with_item known.now made item.now) }
{
    match item {
        Item::Class(_) => Ok(Some(made)),
        Item::Def(function) => with_function(alloc, known, made, function),
        Item::Stmt(s) => with_statement(alloc, known, made, s),
    }
}

/// The items of a script in source order.
fn items_made(
    alloc: Global,
    known: &Known,
    start: Made,
    items: &[Item],
) -> Result<Option<Made>, AllocError>
    ensures { IfOk result (λ m. m ≡ items_made known.now start items.now) }
{
    let mut made = start;
    for item in items {
        let Some(more) = with_item(alloc, known, made, item)? else {
            return Ok(None);
        };
        made = more;
    }
    Ok(Some(made))
}

fn nothing_made(alloc: Global, main: Local, bodies: Items<Local>) -> Result<Made, AllocError>
    ensures { IfOk result (λ m. m ≡ nothing_made main bodies) }
{
    let functions = Items::new(alloc);
    let lines = Items::new(alloc);
    let sites = Items::new(alloc);
    let state = State { local: main, sites };
    let bodies = Stack::from_items(alloc, bodies)?;
    Ok(Made {
        functions,
        lines,
        state,
        bodies,
    })
}

// ---- the script

fn field_names(alloc: Global, fields: &[Field]) -> Result<Items<Name>, AllocError>
    ensures { IfOk result (λ names. names ≡ map (λ f. f.name) fields.now) }
{
    let mut names = Items::new(alloc);
    for field in fields {
        names.push(field.name.share()?)?;
    }
    Ok(names)
}

/// The classes with their field names in declared order, and their types.
fn cast_classes(alloc: Global, classes: &[KnownClass]) -> Result<Items<CastClass>, AllocError>
    ensures { IfOk result (λ all. all ≡ map class_of classes.now) }
{
    let mut all = Items::new(alloc);
    for class in classes {
        let params = field_names(alloc, class.fields.as_slice())?;
        let ty = class.ty.share()?;
        all.push(CastClass { params, ty })?;
    }
    Ok(all)
}

/// The script whose items are done.
fn script_of(
    alloc: Global,
    scoped: &Shared<Scoped>,
    known: &Known,
    made: Made,
) -> Result<CastScript, AllocError>
    ensures { IfOk result (λ p. p ≡ script_of scoped.now known.now made (with_sites no_sites made.state.sites)) }
{
    let Made {
        functions,
        lines,
        state,
        ..
    } = made;
    let State { local, sites } = state;
    let table = table_of(alloc, sites.as_slice())?;
    let types = table.types.shared(alloc)?;
    let classes = cast_classes(alloc, known.classes.as_slice())?;
    let main = block_of(alloc, local, lines)?;
    let scoped = scoped.share()?;
    Ok(CastScript {
        scoped,
        types,
        classes,
        functions,
        main,
        sites: table.sites,
    })
}

/// The script whose names are known so.
fn script_made(
    alloc: Global,
    scoped: &Shared<Scoped>,
    known: KnownScript,
) -> Result<Option<CastScript>, AllocError>
    ensures { IfOk result (λ p. p ≡ script_made scoped.now known) }
{
    let KnownScript {
        names,
        bodies,
        main,
    } = known;
    let start = nothing_made(alloc, main, bodies)?;
    let items = scoped.get().script.get().items.get().as_slice();
    let Some(made) = items_made(alloc, &names, start, items)? else {
        return Ok(None);
    };
    Ok(Some(script_of(alloc, scoped, &names, made)?))
}

/// The script with a cast wherever a value of one type is used at another. Its sites stand in source order, those of an expression's
/// parts before its own. The list of types has each in the order in which the sites first speak of it.
pub fn insert(alloc: Global, typed: &Typed) -> Result<CastScript, AllocError>
    requires scope { IsScope typed.now.scoped.script typed.now.scoped }
    requires typed { IsTyping typed.now.scoped typed.now }
    ensures casts { IfOk result (HasCasts typed.now.scoped) }
{
    let known = known_in(alloc, typed.scoped.get())?;
    match script_made(alloc, &typed.scoped, known)? {
        Some(script) => Ok(script),
        // A typed script is never refused here.
        None => unreachable!(),
    }
}
