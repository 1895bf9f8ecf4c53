ghost use Rattle.std.specs.Prelude.{◌≡◌, IsTrue, ◌↔◌};
ghost use Rattle.mono_syntax.specs.TyView.{tys, fields};
ghost use Rattle.mono_tree.specs.Precise.{Precise, ArePrecise, HavePrecise};

use mono_list::Shared;
use mono_syntax::{Field, Name, Ty, TyKind};

/// Whether `a` is at least as precise as `b`.
#[cycle(precise)]
#[tactic(auto, using(crate::proofs::Layers::levels))]
pub fn precise(a: &Ty, b: &Ty) -> bool
    ensures { IsTrue result ↔ Precise a.now b.now }
{
    match (&a.kind, &b.kind) {
        (_, TyKind::Dyn) => true,
        (TyKind::Int, TyKind::Int) => true,
        (TyKind::Bool, TyKind::Bool) => true,
        (TyKind::Str, TyKind::Str) => true,
        (TyKind::Nil, TyKind::Nil) => true,
        (TyKind::Fun(params, out), TyKind::Fun(others, other)) => {
            are_precise(params.as_slice(), others.as_slice()) && precise(out.get(), other.get())
        }
        (TyKind::Obj(members), TyKind::Obj(others)) => {
            have_precise(members.as_slice(), others.as_slice())
        }
        _ => false,
    }
}

#[cycle(precise)]
#[tactic(auto, using(crate::proofs::PreciseTurns::all_turns))]
fn are_precise(types: &[Shared<Ty>], others: &[Shared<Ty>]) -> bool
    ensures { IsTrue result ↔ ArePrecise (tys types.now) (tys others.now) }
{
    if types.len() != others.len() {
        return false;
    }
    for (a, b) in types.iter().zip(others) {
        if !precise(a.get(), b.get()) {
            return false;
        }
    }
    true
}

#[cycle(precise)]
#[tactic(auto, using(crate::proofs::PreciseTurns::fields_turns))]
fn have_precise(members: &[Field], others: &[Field]) -> bool
    ensures { IsTrue result ↔ HavePrecise (fields members.now) (fields others.now) }
{
    if members.len() != others.len() {
        return false;
    }
    for (a, b) in members.iter().zip(others) {
        if !same_name(&a.name, &b.name) || !precise(a.ty.get(), b.ty.get()) {
            return false;
        }
    }
    true
}

/// Whether both are one name.
pub(crate) fn same_name(a: &Name, b: &Name) -> bool
    ensures { IsTrue result ↔ (a.now ≡ b.now) }
{
    a.as_slice() == b.as_slice()
}
