ghost use Rattle.std.specs.Prelude.{◌≡◌, ◌+◌, length, None};
ghost use Rattle.mono_syntax.specs.AnnView.{anns};
ghost use Rattle.class_types.specs.computed.FoundFaults.{first_from, found, type_fault, count_fault, wide, part_faults};
ghost use Rattle.class_types.specs.computed.Made.{look};
ghost use Rattle.script_rules.specs.SourceParts.{annotation, arguments, callables, callables_all};

use crate::first::sooner;
use crate::measure::size_of;
use mono_syntax::{Ann, AnnForm, MOST_PARAMETERS, Place, Reason, Refusal};
use mono_tree::Size;
use name_places::NamePlaces;

/// The sizes of the types of classes, by the classes' names.
#[derive(Drop)]
pub struct Sizes {
    pub names: NamePlaces,
    pub own: Vec<Option<Size>>,
}

/// A type has over 1,024 nodes or a depth over 32.
pub fn type_fault(so_far: Option<Refusal>, place: Place, size: Option<Size>) -> Option<Refusal>
    ensures { result ≡ first_from so_far (type_fault place size) }
{
    match size {
        Some(size) if size.is_too_large() => {
            let reason = Reason::TypeTooLarge;
            sooner(so_far, Refusal { place, reason })
        }
        _ => so_far,
    }
}

/// A list has more than it may have.
pub fn count_fault(
    so_far: Option<Refusal>,
    reason: Reason,
    most: usize,
    place: Place,
    count: usize,
) -> Option<Refusal>
    ensures { result ≡ first_from so_far (count_fault reason most (record { place = place; count = count })) }
{
    if count > most {
        sooner(so_far, Refusal { place, reason })
    } else {
        so_far
    }
}

/// A Callable in an annotation has too many parameters.
#[cycle(wide)]
#[tactic(auto, using(crate::proofs::FoundLaws::found_steps))]
fn wide(so_far: Option<Refusal>, ann: &Ann) -> Option<Refusal>
    ensures { result ≡ found wide so_far (callables ann.now) }
{
    match &ann.what {
        AnnForm::Fun(params, out) => {
            let reason = Reason::TooManyParameters;
            let so_far = count_fault(so_far, reason, MOST_PARAMETERS, ann.place, params.len());
            let so_far = wide_all(so_far, params.as_slice());
            wide(so_far, out.get())
        }
        _ => so_far,
    }
}

#[cycle(wide)]
#[tactic(auto, using(mono_syntax::proofs::Parts::parts, crate::proofs::FoundLaws::found_steps))]
fn wide_all(so_far: Option<Refusal>, list: &[Ann]) -> Option<Refusal>
    ensures { result ≡ found wide so_far (callables_all (anns list.now)) }
{
    let mut so_far = so_far;
    for ann in list {
        so_far = wide(so_far, ann);
    }
    so_far
}

/// The faults of an annotation: its type, and its Callables.
#[tactic(auto, using(crate::proofs::FoundLaws::found_steps))]
pub fn ann_faults(sizes: &Sizes, so_far: Option<Refusal>, ann: &Ann) -> Option<Refusal>
    ensures { result ≡ first_from so_far (part_faults (look sizes.now.names sizes.now.own.items None) (annotation ann.now)) }
{
    let size = size_of(&sizes.names, sizes.own.as_slice(), None, ann);
    let so_far = type_fault(so_far, ann.place, size);
    wide(so_far, ann)
}
