ghost use Rattle.std.specs.Prelude.{◌≡◌};
ghost use Rattle.known_names.specs.computed.Gives.{Gives};
ghost use Rattle.consistency.specs.computed.Checked.{no_parts, finished};

use crate::trace::{Trace, with_expr};
use mono_list::Shared;
use mono_syntax::{LoadFault, Place, Reason, Ty};
use rule_choice::{Part, refused};
use sqlite_items::Items;
use std::alloc::Global;

/// The parts of an expression so far, in source order, and the types of all expressions so far.
#[derive(Drop)]
pub struct Parts {
    pub parts: Items<Part>,
    pub trace: Trace,
}

/// The type of an expression, and the types of all expressions so far, with its own.
#[derive(Drop)]
pub struct Whole {
    pub ty: Shared<Ty>,
    pub trace: Trace,
}

pub fn no_parts(alloc: Global, trace: Trace) -> Parts
    ensures { result ≡ no_parts trace }
{
    let parts = Items::new(alloc);
    Parts { parts, trace }
}

/// An expression of this type, unless a part of it can't be used where it is.
pub fn finished(apart: Option<Place>, ty: Shared<Ty>, trace: Trace) -> Result<Whole, LoadFault>
    ensures { Gives result (finished apart ty trace) }
{
    if let Some(place) = apart {
        return Err(refused(place, Reason::Inconsistent));
    }
    let trace = with_expr(trace, &ty)?;
    Ok(Whole { ty, trace })
}
