ghost use Rattle.std.specs.Prelude.{◌≡◌, map, IfOk};
ghost use Rattle.class_types.specs.computed.Made.{names_of_classes};

use mono_syntax::ClassDef;
use name_places::NamePlaces;
use std::alloc::{AllocError, Global};

/// The names of classes, in source order.
pub fn names_of(alloc: Global, classes: &[&ClassDef]) -> Result<NamePlaces, AllocError>
    ensures { IfOk result (λ r. r ≡ names_of_classes (map (λ d. d.now) classes.now)) }
{
    let mut names = NamePlaces::new(alloc);
    for class in classes {
        names = names.push(alloc, &class.name.text)?;
    }
    Ok(names)
}
