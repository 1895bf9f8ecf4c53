ghost use Rattle.std.specs.Prelude.{◌≡◌, IfOk, map};
ghost use Rattle.node_code.specs.Places.{Each};
ghost use Rattle.program_code.specs.SameScript.{IsClass};
ghost use Rattle.script_rules.specs.Definitions.{classes_of, functions_of};

use crate::data::ClassCode;
use mono_syntax::{CastClass, Item, Name};
use sqlite_items::Items;
use std::alloc::{AllocError, Global};

fn names_again(alloc: Global, names: &[Name]) -> Result<Items<Name>, AllocError>
    ensures { IfOk result (λ r. r ≡ names.now) }
{
    let mut again = Items::new(alloc);
    for name in names {
        again.push(name.share()?)?;
    }
    Ok(again)
}

/// The classes by number.
pub(crate) fn class_codes(
    alloc: Global,
    classes: &[CastClass],
) -> Result<Items<ClassCode>, AllocError>
    ensures { IfOk result (λ r. Each IsClass r classes.now) }
{
    let mut codes = Items::new(alloc);
    for class in classes {
        let params = names_again(alloc, class.params.as_slice())?;
        codes.push(ClassCode { params })?;
    }
    Ok(codes)
}

/// The names of the classes that are defined.
pub(crate) fn class_names(alloc: Global, items: &[Item]) -> Result<Items<Name>, AllocError>
    ensures { IfOk result (λ r. r ≡ map (λ d. d.name.text) (classes_of items.now)) }
{
    let mut names = Items::new(alloc);
    for item in items {
        if let Item::Class(class) = item {
            names.push(class.name.text.share()?)?;
        }
    }
    Ok(names)
}

/// The names of the functions that are defined.
pub(crate) fn function_names(alloc: Global, items: &[Item]) -> Result<Items<Name>, AllocError>
    ensures { IfOk result (λ r. r ≡ map (λ d. d.name.text) (functions_of items.now)) }
{
    let mut names = Items::new(alloc);
    for item in items {
        if let Item::Def(function) = item {
            names.push(function.name.text.share()?)?;
        }
    }
    Ok(names)
}
