ghost use Rattle.std.specs.Prelude.{◌≡◌, ◌++◌, ◌∷◌, [], IfOk};
ghost use Rattle.script_rules.specs.SourceParts.{any_ann};
ghost use Rattle.written_types.specs.computed.TypesOnto.{type_of, types_onto};

use known_names::{NamedTypes, new_type, written};
use mono_list::Shared;
use mono_syntax::{Ann, Ty, TyKind};
use sqlite_items::Items;
use std::alloc::{AllocError, Global};

/// The type that an annotation writes. Where it writes none it counts as `Dyn`, which no script does whose names are right.
fn type_of(alloc: Global, classes: &NamedTypes, ann: &Ann) -> Result<Shared<Ty>, AllocError>
    ensures { IfOk result (λ r. r ≡ type_of classes.now ann.now) }
{
    match written(alloc, classes, ann)? {
        Some(ty) => Ok(ty),
        None => new_type(alloc, TyKind::Dyn),
    }
}

/// The type of one more annotation.
pub fn ann_type(
    alloc: Global,
    classes: &NamedTypes,
    done: Items<Shared<Ty>>,
    ann: &Ann,
) -> Result<Items<Shared<Ty>>, AllocError>
    ensures { IfOk result (λ r. r ≡ done ++ type_of classes.now ann.now ∷ []) }
{
    let mut done = done;
    done.push(type_of(alloc, classes, ann)?)?;
    Ok(done)
}

/// The type of an annotation that may be there.
pub fn any_ann_type(
    alloc: Global,
    classes: &NamedTypes,
    done: Items<Shared<Ty>>,
    ann: &Option<Ann>,
) -> Result<Items<Shared<Ty>>, AllocError>
    ensures { IfOk result (λ r. r ≡ types_onto classes.now done (any_ann ann.now)) }
{
    match ann {
        Some(ann) => ann_type(alloc, classes, done, ann),
        None => Ok(done),
    }
}
