ghost use Rattle.std.specs.Prelude.{◌≡◌, [], None, IfOk, MatchOption};
ghost use Rattle.mono_syntax.specs.declared.tree.Item.TheVariants as item;
ghost use Rattle.script_rules.specs.Definitions.{classes_of};
ghost use Rattle.script_rules.specs.FirstFault.{IsFirst, IsFaultless};
ghost use Rattle.class_types.specs.computed.FoundFaults.{first_from, found, part_faults, own_faults, items_faults, parts_faults};
ghost use Rattle.class_types.specs.computed.Made.{look, names_of_classes};
ghost use Rattle.class_types.specs.computed.Measured.{AreMeasured};
ghost use Rattle.script_rules.specs.SizeFaults.{SizeFault};
ghost use Rattle.script_rules.specs.SourceParts.{field_parts, param_parts, item_parts, any_ann, body_parts};

use crate::block::{main_faults, names_faults};
use crate::faults::{Sizes, ann_faults, count_fault, type_fault};
use crate::graph::Graph;
use crate::measure::{size_of_class, size_of_function};
use crate::names::names_of;
use crate::settle::classes_of;
use crate::sized::sized;
use crate::walk::{any_ann_faults, stmt_faults};
use mono_syntax::{
    ClassDef, FieldDef, FuncDef, Item, MOST_FIELDS, MOST_PARAMETERS, Param, Reason, Refusal,
    Script, Stmt,
};
use std::alloc::{AllocError, Global};

/// The faults in the annotations of fields.
fn field_faults(sizes: &Sizes, so_far: Option<Refusal>, list: &[FieldDef]) -> Option<Refusal>
    ensures { result ≡ found (part_faults (look sizes.now.names sizes.now.own.items None)) so_far (field_parts list.now) }
{
    let mut so_far = so_far;
    for field in list {
        so_far = ann_faults(sizes, so_far, &field.ann);
    }
    so_far
}

/// The faults in the annotations of parameters.
fn param_faults(sizes: &Sizes, so_far: Option<Refusal>, params: &[Param]) -> Option<Refusal>
    ensures { result ≡ found (part_faults (look sizes.now.names sizes.now.own.items None)) so_far (param_parts params.now) }
{
    let mut so_far = so_far;
    for param in params {
        so_far = any_ann_faults(sizes, so_far, &param.ann);
    }
    so_far
}

/// The faults in a function's body.
fn body_faults(sizes: &Sizes, so_far: Option<Refusal>, body: &[Stmt]) -> Option<Refusal>
    ensures { result ≡ found (part_faults (look sizes.now.names sizes.now.own.items None)) so_far (body_parts body.now) }
{
    let mut so_far = so_far;
    for s in body {
        so_far = stmt_faults(sizes, so_far, s);
    }
    so_far
}

/// A class's type is too large, or it has over 64 fields.
#[tactic(auto, using(crate::proofs::FoundLaws::found_steps))]
fn class_faults(sizes: &Sizes, so_far: Option<Refusal>, class: &ClassDef) -> Option<Refusal>
    ensures { result ≡ first_from so_far (own_faults (look sizes.now.names sizes.now.own.items None) (item.Class class.now)) }
{
    let size = size_of_class(&sizes.names, sizes.own.as_slice(), None, class);
    let so_far = type_fault(so_far, class.name.place, size);
    let (reason, count) = (Reason::TooManyFields, class.fields.len());
    count_fault(so_far, reason, MOST_FIELDS, class.name.place, count)
}

/// A function's type is too large, it has over 8 parameters, or its block over 4,096 names.
#[tactic(auto, using(crate::proofs::FoundLaws::found_steps))]
fn function_faults(
    alloc: Global,
    sizes: &Sizes,
    so_far: Option<Refusal>,
    function: &FuncDef,
) -> Result<Option<Refusal>, AllocError>
    ensures { IfOk result (λ r. r ≡ first_from so_far (own_faults (look sizes.now.names sizes.now.own.items None) (item.Def function.now))) }
{
    let size = size_of_function(&sizes.names, sizes.own.as_slice(), None, function);
    let so_far = type_fault(so_far, function.name.place, size);
    let (reason, count) = (Reason::TooManyParameters, function.params.len());
    let so_far = count_fault(so_far, reason, MOST_PARAMETERS, function.name.place, count);
    names_faults(alloc, so_far, function)
}

/// The faults of an item itself.
fn own_faults(
    alloc: Global,
    sizes: &Sizes,
    so_far: Option<Refusal>,
    item: &Item,
) -> Result<Option<Refusal>, AllocError>
    ensures { IfOk result (λ r. r ≡ first_from so_far (own_faults (look sizes.now.names sizes.now.own.items None) item.now)) }
{
    match item {
        Item::Class(class) => Ok(class_faults(sizes, so_far, class)),
        Item::Def(function) => function_faults(alloc, sizes, so_far, function),
        Item::Stmt(_) => Ok(so_far),
    }
}

/// The faults in an item.
#[tactic(auto, using(crate::proofs::FoundLaws::found_steps))]
fn item_faults(sizes: &Sizes, so_far: Option<Refusal>, item: &Item) -> Option<Refusal>
    ensures { result ≡ found (part_faults (look sizes.now.names sizes.now.own.items None)) so_far (item_parts item.now) }
{
    match item {
        Item::Class(class) => field_faults(sizes, so_far, class.fields.as_slice()),
        Item::Def(function) => {
            let so_far = param_faults(sizes, so_far, function.params.as_slice());
            let so_far = any_ann_faults(sizes, so_far, &function.result);
            body_faults(sizes, so_far, function.body.as_slice())
        }
        Item::Stmt(s) => stmt_faults(sizes, so_far, s),
    }
}

/// The faults of items, and in them.
fn items_faults(alloc: Global, sizes: &Sizes, items: &[Item]) -> Result<Option<Refusal>, AllocError>
    ensures { IfOk result (λ r. r ≡ first_from None (items_faults (look sizes.now.names sizes.now.own.items None) items.now)) }
{
    let mut so_far = None;
    for item in items {
        so_far = own_faults(alloc, sizes, so_far, item)?;
        so_far = item_faults(sizes, so_far, item);
    }
    Ok(so_far)
}

/// The sizes of the types of a script's classes.
fn class_sizes(alloc: Global, items: &[Item]) -> Result<Sizes, AllocError>
    ensures names { IfOk result (λ r. r.names ≡ names_of_classes (classes_of items.now)) }
    ensures own { IfOk result (λ r. AreMeasured (classes_of items.now) None r.own.items) }
{
    let classes = classes_of(alloc, items)?;
    let names = names_of(alloc, classes.as_slice())?;
    let order = Graph::new(alloc, &names, classes.as_slice())?.leaving(alloc)?;
    let own = sized(alloc, &names, classes.as_slice(), None, order.as_slice())?;
    Ok(Sizes { names, own })
}

/// The first fault of size, whether or not the script has other faults; none where there is none. No type is made.
pub fn size_refusal(alloc: Global, script: &Script) -> Result<Option<Refusal>, AllocError>
    ensures { IfOk result (λ r. MatchOption r (IsFaultless (SizeFault script.now)) (IsFirst (SizeFault script.now))) }
{
    let items = script.items.get().as_slice();
    let sizes = class_sizes(alloc, items)?;
    let so_far = items_faults(alloc, &sizes, items)?;
    main_faults(alloc, so_far, items)
}
