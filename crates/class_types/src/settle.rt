ghost use Rattle.std.specs.Prelude.{◌≡◌, ◌≤◌, ◌∷◌, ◌++◌, [], length, map, replicate, None, IfOk};
ghost use Rattle.class_types.specs.computed.Made.{look, class_by, names_of_classes, AreSettled};
ghost use Rattle.class_types.specs.computed.Rounds.{filled, round, unknown};
ghost use Rattle.script_rules.specs.Definitions.{classes_of};

use crate::made::class_made;
use mono_list::Shared;
use mono_syntax::{ClassDef, Item, Ty};
use name_places::NamePlaces;
use sqlite_items::Items;
use std::alloc::{AllocError, Global};

/// The classes among a script's items, in source order.
pub fn classes_of(alloc: Global, items: &[Item]) -> Result<Vec<&ClassDef>, AllocError>
    ensures { IfOk result (λ r. map (λ d. d.now) r.items ≡ classes_of items.now) }
{
    let mut classes = Vec::new(alloc);
    for item in items {
        if let Item::Class(class) = item {
            classes.push(class)?;
        }
    }
    Ok(classes)
}

/// The types so far with that of this class, where it has none yet and its fields give one.
fn filled(
    alloc: Global,
    names: &NamePlaces,
    class: &ClassDef,
    mut own: Items<Option<Shared<Ty>>>,
    at: usize,
) -> Result<Items<Option<Shared<Ty>>>, AllocError>
    ensures { IfOk result (λ r. r ≡ filled class_by names.now None class.now own at) }
{
    match own.get(at) {
        Some(None) => {}
        _ => return Ok(own),
    }
    let made = class_made(alloc, names, own.as_slice(), class)?;
    if made.is_some() {
        own.set(at, made);
    }
    Ok(own)
}

/// One round: each class that has no type yet gets the one that its fields give, where they give one.
fn round(
    alloc: Global,
    names: &NamePlaces,
    classes: &[&ClassDef],
    own: Items<Option<Shared<Ty>>>,
) -> Result<Items<Option<Shared<Ty>>>, AllocError>
    ensures { IfOk result (λ r. r ≡ round class_by names.now None (map (λ d. d.now) classes.now) own 0) }
{
    let mut own = own;
    for (at, class) in classes.iter().enumerate() {
        own = filled(alloc, names, class, own, at)?;
    }
    Ok(own)
}

/// How many have no value yet.
pub fn unknown<T>(own: &[Option<T>]) -> usize
    ensures count { result ≡ unknown own.now }
    ensures within { result ≤ length own.now }
{
    let mut count = 0;
    for each in own {
        if each.is_none() {
            count += 1;
        }
    }
    count
}

fn none_known(alloc: Global, count: usize) -> Result<Items<Option<Shared<Ty>>>, AllocError>
    ensures { IfOk result (λ r. r ≡ replicate count None) }
{
    let mut own = Items::new(alloc);
    while own.len() < count {
        own.push(None)?;
    }
    Ok(own)
}

/// The types of the classes: each has the one that its fields give, or none where they give none. A round makes the
/// types of all classes whose fields have theirs, so there are no more rounds than types are deep.
pub fn settled(
    alloc: Global,
    names: &NamePlaces,
    classes: &[&ClassDef],
) -> Result<Items<Option<Shared<Ty>>>, AllocError>
    requires { names.now ≡ names_of_classes (map (λ d. d.now) classes.now) }
    ensures { IfOk result (λ r. AreSettled (map (λ d. d.now) classes.now) None r) }
{
    let mut own = none_known(alloc, classes.len())?;
    let mut left = classes.len();
    loop {
        own = round(alloc, names, classes, own)?;
        let now = unknown(own.as_slice());
        if now == left {
            return Ok(own);
        }
        left = now;
    }
}
