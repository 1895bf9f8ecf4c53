ghost use Rattle.std.specs.Prelude.{◌≡◌, List, [], ◌∷◌, ◌++◌, IfOk};
ghost use Rattle.mono_syntax.specs.declared.tree.FuncDef.{FuncDef};
ghost use Rattle.mono_syntax.specs.Ty.{Ty};
ghost use Rattle.script_rules.specs.BlockNames.{all_targets};
ghost use Rattle.script_rules.specs.Definitions.{functions_of, statements_of};
ghost use Rattle.script_rules.specs.Scoping.{class_list, StandsAt, IsBlockScope};
ghost use Rattle.script_rules.specs.Writes.{IsFunctionType};
ghost use Rattle.class_types.specs.declared.table.ClassTypes.{ClassTypes};
ghost use Rattle.class_types.specs.Holds.{Holds, Extends};
ghost use Rattle.name_scope.specs.computed.Typing.{EachWrites, IsTypable, AreTypable, FunctionsTyped};

use crate::bound::{Bound, function_bound, main_bound};
use crate::typing::typed_names;
use class_types::{ClassTypes, function_type};
use mono_syntax::{BlockNames, FuncDef, Item, TyAt};
use sqlite_items::Items;
use std::alloc::{AllocError, Global};

/// The names of a function's block with their types.
fn function_scope(
    alloc: Global,
    known: ClassTypes,
    d: &FuncDef,
) -> Result<(BlockNames, ClassTypes), AllocError>
    requires holds { Holds known }
    requires writes { EachWrites (class_list known.script) (all_targets d.now.params d.now.body) }
    ensures stand { IfOk result (λ r. IsBlockScope (class_list known.script) r.1.types d.now.params d.now.body r.0) }
    ensures keeps { IfOk result (λ r. Extends known r.1) }
{
    let Bound { targets, threads } = function_bound(alloc, d)?;
    let (values, known) = typed_names(alloc, known, targets.as_slice())?;
    Ok((BlockNames { values, threads }, known))
}

/// The names of the main block with their types.
pub(crate) fn main_scope(
    alloc: Global,
    known: ClassTypes,
    items: &[Item],
) -> Result<(BlockNames, ClassTypes), AllocError>
    requires holds { Holds known }
    requires writes { EachWrites (class_list known.script) (all_targets [] (statements_of items.now)) }
    ensures stand { IfOk result (λ r. IsBlockScope (class_list known.script) r.1.types [] (statements_of items.now) r.0) }
    ensures keeps { IfOk result (λ r. Extends known r.1) }
{
    let Bound { targets, threads } = main_bound(alloc, items)?;
    let (values, known) = typed_names(alloc, known, targets.as_slice())?;
    Ok((BlockNames { values, threads }, known))
}

/// The position of a function's type.
fn declared_type(
    alloc: Global,
    known: ClassTypes,
    d: &FuncDef,
) -> Result<(TyAt, ClassTypes), AllocError>
    requires holds { Holds known }
    requires writes { (x : Ty) × IsFunctionType (class_list known.script) d.now x }
    ensures found { IfOk result (λ r. StandsAt r.1.types r.0 (IsFunctionType (class_list known.script) d.now)) }
    ensures keeps { IfOk result (λ r. Extends known r.1) }
{
    let (at, known) = function_type(alloc, known, d)?;
    match at {
        Some(at) => Ok((at, known)),
        None => unreachable!(),
    }
}

/// The functions so far, each with its type and the names of its block.
#[derive(Drop)]
pub(crate) struct TypedFunctions {
    pub(crate) known: ClassTypes,
    pub(crate) types: Items<TyAt>,
    pub(crate) blocks: Items<BlockNames>,
}

/// Takes one more function.
fn with_function(
    alloc: Global,
    state: TypedFunctions,
    d: &FuncDef,
) -> Result<TypedFunctions, AllocError>
    requires holds { Holds state.known }
    requires typable { IsTypable (class_list state.known.script) d.now }
    ensures { IfOk result (λ r. (first : ClassTypes) (ds : List FuncDef) → FunctionsTyped first ds state → FunctionsTyped first (ds ++ d.now ∷ []) r) }
{
    let TypedFunctions {
        known,
        mut types,
        mut blocks,
    } = state;
    let (at, known) = declared_type(alloc, known, d)?;
    let (names, known) = function_scope(alloc, known, d)?;
    types.push(at)?;
    blocks.push(names)?;
    Ok(TypedFunctions {
        known,
        types,
        blocks,
    })
}

/// Takes a function in where the item is one.
fn with_item(
    alloc: Global,
    state: TypedFunctions,
    item: &Item,
) -> Result<TypedFunctions, AllocError>
    requires holds { Holds state.known }
    requires typable { AreTypable (class_list state.known.script) (functions_of (item.now ∷ [])) }
    ensures { IfOk result (λ r. (first : ClassTypes) (ds : List FuncDef) → FunctionsTyped first ds state → FunctionsTyped first (ds ++ functions_of (item.now ∷ [])) r) }
{
    match item {
        Item::Def(d) => with_function(alloc, state, d),
        Item::Class(_) => Ok(state),
        Item::Stmt(_) => Ok(state),
    }
}

/// All functions, each with its type and the names of its block.
pub(crate) fn typed_functions(
    alloc: Global,
    known: ClassTypes,
    items: &[Item],
) -> Result<TypedFunctions, AllocError>
    requires holds { Holds known }
    requires typable { AreTypable (class_list known.script) (functions_of items.now) }
    ensures { IfOk result (FunctionsTyped known (functions_of items.now)) }
{
    let mut state = TypedFunctions {
        known,
        types: Items::new(alloc),
        blocks: Items::new(alloc),
    };
    for item in items {
        state = with_item(alloc, state, item)?;
    }
    Ok(state)
}
