ghost use Rattle.std.specs.Prelude.{◌≡◌, List, length, IfOk};
ghost use Rattle.mono_syntax.specs.declared.leaf.Op.TheVariants as op;
ghost use Rattle.mono_syntax.specs.Expr.{Expr};
ghost use Rattle.static_types.specs.Operators.{is_dyn_sum};
ghost use Rattle.rule_choice.specs.GivenParts.{types_of, AreAt, IsUsed};
ghost use Rattle.rule_choice.specs.computed.Apart.{first_apart};

use known_names::{is_consistent, is_dyn};
use mono_list::Shared;
use mono_syntax::{Place, Ty};
use std::alloc::{AllocError, Global};

/// A part of a construct: where it stands, and its type.
#[derive(Drop)]
pub struct Part {
    pub place: Place,
    pub ty: Shared<Ty>,
}

/// Whether these are two parts of type `Dyn`.
pub fn are_two_dyn(parts: &[Part]) -> bool
    ensures { result ≡ is_dyn_sum op.Add (types_of parts.now) }
{
    match parts {
        [a, b] => is_dyn(a.ty.get()) && is_dyn(b.ty.get()),
        _ => false,
    }
}

#[tactic(auto, using(crate::proofs::PartLists::over))]
fn apart(alloc: Global, parts: &[Part], asks: &[Shared<Ty>]) -> Result<Option<Place>, AllocError>
    ensures { IfOk result (λ place. place ≡ first_apart parts.now asks.now) }
{
    for (part, asked) in parts.iter().zip(asks) {
        if !is_consistent(alloc, part.ty.get(), asked.get())? {
            return Ok(Some(part.place));
        }
    }
    Ok(None)
}

/// Where the first part stands that can't be used at its type.
pub fn first_apart(
    alloc: Global,
    parts: &[Part],
    asks: &[Shared<Ty>],
) -> Result<Option<Place>, AllocError>
    ensures used { (es : List Expr) → AreAt es parts.now → length parts.now ≡ length asks.now → IfOk result (IsUsed es parts.now asks.now) }

    // It is the value that the definition of this name computes.
    ensures computed { IfOk result (λ place. place ≡ first_apart parts.now asks.now) }
{
    apart(alloc, parts, asks)
}
