ghost use Rattle.std.specs.Prelude.{◌≡◌, true, false, map, IfOk};
ghost use Rattle.class_types.specs.computed.Leading.{recursive_at};
ghost use Rattle.class_types.specs.computed.Made.{names_of_classes};
ghost use Rattle.class_types.specs.computed.Ranks.{rank_of, rises, is_before, may_be_first, NeverRise};

use crate::first::no_later;
use crate::graph::{Graph, words_of};
use crate::leading::is_first;
use mono_syntax::{ClassDef, Name, Reason, Refusal, Word};
use name_places::NamePlaces;
use std::alloc::{AllocError, Global};

/// The rank of the class of a name.
fn rank_of(names: &NamePlaces, ranks: &[usize], name: &Name) -> usize
    ensures { result ≡ rank_of names.now ranks.now name.now }
{
    match names.place(name) {
        Some(at) => match ranks.get(at) {
            Some(rank) => *rank,
            None => 0,
        },
        None => 0,
    }
}

/// Whether one of these words names a class of a higher rank than this one.
fn rises(names: &NamePlaces, ranks: &[usize], name: &Name, words: &[&Word]) -> bool
    ensures { result ≡ rises names.now ranks.now name.now (map (λ w. w.now) words.now) }
{
    for word in words {
        if rank_of(names, ranks, name) < rank_of(names, ranks, &word.text) {
            return true;
        }
    }
    false
}

/// Whether a fault comes before the first of those so far.
fn is_before(more: Refusal, so_far: Option<Refusal>) -> bool
    ensures { result ≡ is_before more so_far }
{
    match so_far {
        Some(first) => !no_later(first, more),
        None => true,
    }
}

/// Whether a class may have a fault before the first so far: a name whose class has no lower rank stands before it.
pub fn may_be_first(
    names: &NamePlaces,
    ranks: &[usize],
    name: &Name,
    so_far: Option<Refusal>,
    words: &[&Word],
) -> bool
    ensures { result ≡ may_be_first names.now ranks.now name.now so_far (map (λ w. w.now) words.now) }
{
    for word in words {
        let (place, reason) = (word.place, Reason::RecursiveClass);
        if rank_of(names, ranks, name) <= rank_of(names, ranks, &word.text)
            && is_before(Refusal { place, reason }, so_far)
        {
            return true;
        }
    }
    false
}

/// Whether a class names one of a higher rank.
fn any_rises(
    alloc: Global,
    names: &NamePlaces,
    classes: &[&ClassDef],
    ranks: &[usize],
) -> Result<bool, AllocError>
    requires { names.now ≡ names_of_classes (map (λ d. d.now) classes.now) }
    ensures { IfOk result (λ b. b ≡ false → NeverRise (map (λ d. d.now) classes.now) ranks.now) }
{
    for (at, class) in classes.iter().enumerate() {
        if is_first(names, &class.name.text, at) {
            let words = words_of(alloc, class.fields.as_slice())?;
            if rises(names, ranks, &class.name.text, words.as_slice()) {
                return Ok(true);
            }
        }
    }
    Ok(false)
}

/// Ranks that never rise from a class to those that its fields name. The graph has such ranks, and they are the best
/// ones; none is asked of it, and where a rank rose, all classes would have the least.
pub fn ranks(
    alloc: Global,
    names: &NamePlaces,
    classes: &[&ClassDef],
    graph: &Graph,
) -> Result<Vec<usize>, AllocError>
    requires { names.now ≡ names_of_classes (map (λ d. d.now) classes.now) }
    ensures { IfOk result (λ r. NeverRise (map (λ d. d.now) classes.now) r.items) }
{
    let ranks = graph.ranks(alloc)?;
    if any_rises(alloc, names, classes, ranks.as_slice())? {
        return Ok(Vec::new(alloc));
    }
    Ok(ranks)
}
