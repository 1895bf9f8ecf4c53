ghost use Rattle.std.specs.Prelude.{◌≡◌, slice_get, length, map, replicate, Some, None, IfOk};
ghost use Rattle.std.specs.Option.{option_map};
ghost use Rattle.class_types.specs.computed.Made.{names_of_classes};
ghost use Rattle.mono_tree.specs.computed.CountedSizes.{measured};
ghost use Rattle.class_types.specs.computed.Measured.{stray_type, class_size_by, AreMeasured};
ghost use Rattle.class_types.specs.computed.Rounds.{filled, round, visit_class, visited};

use crate::measure::size_of_class;
use crate::settle::unknown;
use mono_syntax::ClassDef;
use mono_tree::Size;
use name_places::NamePlaces;
use std::alloc::{AllocError, Global};

/// The sizes so far with that of this class, where it has none yet and its fields give one.
fn filled(
    names: &NamePlaces,
    stray: Option<Size>,
    class: &ClassDef,
    mut own: Vec<Option<Size>>,
    at: usize,
) -> Vec<Option<Size>>
    ensures { result.items ≡ filled class_size_by names.now stray class.now own.items at }
{
    match own.get(at) {
        Some(None) => {}
        _ => return own,
    }
    let size = size_of_class(names, own.as_slice(), stray, class);
    if size.is_some() {
        own[at] = size;
    }
    own
}

/// One round: each class that has no size yet gets the one that its fields give, where they give one.
fn round(
    names: &NamePlaces,
    stray: Option<Size>,
    classes: &[&ClassDef],
    own: Vec<Option<Size>>,
) -> Vec<Option<Size>>
    ensures { result.items ≡ round class_size_by names.now stray (map (λ d. d.now) classes.now) own.items 0 }
{
    let mut own = own;
    for (at, class) in classes.iter().enumerate() {
        own = filled(names, stray, class, own, at);
    }
    own
}

/// The class at a place, where one stands there.
fn visit(
    names: &NamePlaces,
    stray: Option<Size>,
    classes: &[&ClassDef],
    own: Vec<Option<Size>>,
    at: usize,
) -> Vec<Option<Size>>
    ensures { result.items ≡ visit_class class_size_by names.now stray (slice_get (map (λ d. d.now) classes.now) at) own.items at }
{
    match classes.get(at) {
        Some(class) => filled(names, stray, class, own, at),
        None => own,
    }
}

/// The classes at these places, one after the other.
fn visited(
    names: &NamePlaces,
    stray: Option<Size>,
    classes: &[&ClassDef],
    order: &[usize],
    own: Vec<Option<Size>>,
) -> Vec<Option<Size>>
    ensures { result.items ≡ visited class_size_by names.now stray (map (λ d. d.now) classes.now) order.now own.items }
{
    let mut own = own;
    for at in order {
        own = visit(names, stray, classes, own, *at);
    }
    own
}

fn none_sized(alloc: Global, count: usize) -> Result<Vec<Option<Size>>, AllocError>
    ensures { IfOk result (λ r. r.items ≡ replicate count None) }
{
    let mut own = Vec::new(alloc);
    while own.len() < count {
        own.push(None)?;
    }
    Ok(own)
}

/// The sizes of the types that the classes have, where a name of no class counts as this. The order of the first visits
/// decides how many rounds there are.
pub fn sized(
    alloc: Global,
    names: &NamePlaces,
    classes: &[&ClassDef],
    stray: Option<Size>,
    order: &[usize],
) -> Result<Vec<Option<Size>>, AllocError>
    requires names { names.now ≡ names_of_classes (map (λ d. d.now) classes.now) }
    requires stray { stray ≡ option_map measured (stray_type stray) }
    ensures { IfOk result (λ r. AreMeasured (map (λ d. d.now) classes.now) stray r.items) }
{
    let none = none_sized(alloc, classes.len())?;
    let mut own = visited(names, stray, classes, order, none);
    let mut left = classes.len();
    loop {
        own = round(names, stray, classes, own);
        let now = unknown(own.as_slice());
        if now == left {
            return Ok(own);
        }
        left = now;
    }
}
