ghost use Rattle.std.specs.Prelude.{◌≡◌, map, slice_get, Some, IfOk, MatchOption};
ghost use Rattle.script_rules.specs.Scoping.{class_list};
ghost use Rattle.script_rules.specs.FirstFault.{IsFirst, IsFaultless};
ghost use Rattle.class_types.specs.computed.Leading.{AddsFaults};
ghost use Rattle.class_types.specs.computed.Made.{names_of_classes};
ghost use Rattle.class_types.specs.computed.Ranks.{NeverRise};
ghost use Rattle.script_rules.specs.Recursion.{IsRecursive};

use crate::graph::{Graph, words_of};
use crate::leading::{is_first, leading, named_in_fields};
use crate::names::names_of;
use crate::ranks::{may_be_first, ranks};
use crate::settle::classes_of;
use mono_syntax::{ClassDef, Refusal, Script};
use name_places::NamePlaces;
use std::alloc::{AllocError, Global};

/// The classes among which recursive ones are looked for.
#[derive(Drop)]
struct Search {
    names: NamePlaces,
    graph: Graph,
    ranks: Vec<usize>,
}

/// The first of the faults so far and those of a class. What leads to the class is searched only where it may have a
/// fault before the first so far: a class that leads back to one that names it has the same rank. With the graph's ranks
/// one search finds the first fault of classes that stand in source order.
fn class_fault(
    alloc: Global,
    search: &Search,
    classes: &[&ClassDef],
    so_far: Option<Refusal>,
    at: usize,
    class: &ClassDef,
) -> Result<Option<Refusal>, AllocError>
    requires names { search.now.names ≡ names_of_classes (map (λ d. d.now) classes.now) }
    requires ranks { NeverRise (map (λ d. d.now) classes.now) search.now.ranks.items }
    requires stands { slice_get (map (λ d. d.now) classes.now) at ≡ Some class.now }
    ensures { IfOk result (λ r. AddsFaults (map (λ d. d.now) classes.now) class.now at so_far r) }
{
    let (names, name) = (&search.names, &class.name.text);
    if !is_first(names, name, at) {
        return Ok(so_far);
    }
    let list = class.fields.as_slice();
    let words = words_of(alloc, list)?;
    if !may_be_first(
        names,
        search.ranks.as_slice(),
        name,
        so_far,
        words.as_slice(),
    ) {
        return Ok(so_far);
    }
    let order = search.graph.leading(alloc, at)?;
    let marks = leading(alloc, names, classes, name, order.as_slice())?;
    Ok(named_in_fields(names, marks.as_slice(), so_far, list))
}

/// The first fault of these classes.
fn first_fault(
    alloc: Global,
    search: &Search,
    classes: &[&ClassDef],
) -> Result<Option<Refusal>, AllocError>
    requires names { search.now.names ≡ names_of_classes (map (λ d. d.now) classes.now) }
    requires ranks { NeverRise (map (λ d. d.now) classes.now) search.now.ranks.items }
    ensures { IfOk result (λ r. MatchOption r (IsFaultless (IsRecursive (map (λ d. d.now) classes.now))) (IsFirst (IsRecursive (map (λ d. d.now) classes.now)))) }
{
    let mut so_far = None;
    for (at, class) in classes.iter().enumerate() {
        so_far = class_fault(alloc, search, classes, so_far, at, class)?;
    }
    Ok(so_far)
}

/// The first place where a class's field names the class, or one that leads to it; none where there is no such place.
pub fn recursive_fault(alloc: Global, script: &Script) -> Result<Option<Refusal>, AllocError>
    ensures { IfOk result (λ r. MatchOption r (IsFaultless (IsRecursive (class_list script.now))) (IsFirst (IsRecursive (class_list script.now)))) }
{
    let classes = classes_of(alloc, script.items.get().as_slice())?;
    let names = names_of(alloc, classes.as_slice())?;
    let graph = Graph::new(alloc, &names, classes.as_slice())?;
    let ranks = ranks(alloc, &names, classes.as_slice(), &graph)?;
    let search = Search {
        names,
        graph,
        ranks,
    };
    first_fault(alloc, &search, classes.as_slice())
}
