ghost use Rattle.std.specs.Prelude.{◌≡◌, [], ◌∷◌, ◌++◌, flat_map, OnOk, IfOk};
ghost use Rattle.mono_syntax.specs.StmtView.{block};
ghost use Rattle.script_rules.specs.Definitions.{statements_of};
ghost use Rattle.script_rules.specs.Occurrences.{in_param, in_function, in_field, in_class, defined_by, in_block};

use crate::collect::{put_ann, put_any_ann, put_word};
use crate::statements::{put_block, put_stmt};
use mono_syntax::{ClassDef, FieldDef, FuncDef, Item, Param};
use script_rules::{Occurrence, Role};
use sqlite_items::Items;
use std::alloc::{AllocError, Global};

/// The names of a function's parameters, result and body.
#[tactic(auto, using(crate::proofs::Turns::turns))]
pub(crate) fn function_names(alloc: Global, d: &FuncDef) -> Result<Items<Occurrence>, AllocError>
    ensures { IfOk result (λ list. list ≡ in_function d.now) }
{
    let mut list = Items::new(alloc);
    put_params(&mut list, d.params.as_slice())?;
    put_any_ann(&mut list, &d.result)?;
    put_block(&mut list, d.body.as_slice())?;
    Ok(list)
}

#[tactic(auto, using(crate::proofs::Turns::turns))]
fn put_params(list: &mut Items<Occurrence>, params: &[Param]) -> Result<(), AllocError>
    ensures { OnOk result (list.new ≡ list.old ++ flat_map in_param params.now) }
{
    for p in params {
        put_word(list, Role::Parameter, &p.name)?;
        put_any_ann(list, &p.ann)?;
    }
    Ok(())
}

/// The names in a class's body.
#[tactic(auto, using(crate::proofs::Turns::turns))]
pub(crate) fn class_names(alloc: Global, d: &ClassDef) -> Result<Items<Occurrence>, AllocError>
    ensures { IfOk result (λ list. list ≡ in_class d.now) }
{
    let mut list = Items::new(alloc);
    put_fields(&mut list, d.fields.as_slice())?;
    Ok(list)
}

#[tactic(auto, using(crate::proofs::Turns::turns))]
fn put_fields(list: &mut Items<Occurrence>, fields: &[FieldDef]) -> Result<(), AllocError>
    ensures { OnOk result (list.new ≡ list.old ++ flat_map in_field fields.now) }
{
    for f in fields {
        put_word(list, Role::Field, &f.name)?;
        put_ann(list, &f.ann)?;
    }
    Ok(())
}

/// The names of the classes and functions.
#[tactic(auto, using(crate::proofs::Turns::turns))]
pub(crate) fn defined_names(alloc: Global, items: &[Item]) -> Result<Items<Occurrence>, AllocError>
    ensures { IfOk result (λ list. list ≡ flat_map defined_by items.now) }
{
    let mut list = Items::new(alloc);
    for item in items {
        put_definition(&mut list, item)?;
    }
    Ok(list)
}

#[tactic(auto, using(crate::proofs::Turns::turns))]
fn put_definition(list: &mut Items<Occurrence>, item: &Item) -> Result<(), AllocError>
    ensures { OnOk result (list.new ≡ list.old ++ defined_by item.now) }
{
    match item {
        Item::Class(d) => put_word(list, Role::Class, &d.name),
        Item::Def(d) => put_word(list, Role::Function, &d.name),
        Item::Stmt(_) => Ok(()),
    }
}

/// The names in the main block.
#[tactic(auto, using(crate::proofs::Turns::turns))]
pub(crate) fn main_names(alloc: Global, items: &[Item]) -> Result<Items<Occurrence>, AllocError>
    ensures { IfOk result (λ list. list ≡ in_block (block (statements_of items.now))) }
{
    let mut list = Items::new(alloc);
    for item in items {
        put_item(&mut list, item)?;
    }
    Ok(list)
}

#[tactic(auto, using(crate::proofs::Turns::turns))]
fn put_item(list: &mut Items<Occurrence>, item: &Item) -> Result<(), AllocError>
    ensures { OnOk result (list.new ≡ list.old ++ in_block (block (statements_of (item.now ∷ [])))) }
{
    match item {
        Item::Stmt(s) => put_stmt(list, s),
        Item::Class(_) => Ok(()),
        Item::Def(_) => Ok(()),
    }
}
