ghost use Rattle.std.specs.Prelude.{IsTrue, ◌↔◌};
ghost use Rattle.mono_syntax.specs.TyView.{tys, fields};
ghost use Rattle.mono_tree.specs.Static.{IsStatic, AreStatic, HaveStatic};

use mono_list::Shared;
use mono_syntax::{Field, Ty, TyKind};

/// Whether no `Dyn` stands in the type.
#[cycle(statics)]
pub fn is_static(a: &Ty) -> bool
    ensures { IsTrue result ↔ IsStatic a.now }
{
    match &a.kind {
        TyKind::Dyn => false,
        TyKind::Int | TyKind::Bool | TyKind::Str | TyKind::Nil => true,
        TyKind::Fun(params, out) => are_static(params.as_slice()) && is_static(out.get()),
        TyKind::Obj(members) => have_static(members.as_slice()),
    }
}

#[cycle(statics)]
#[tactic(auto, using(mono_syntax::proofs::Parts::parts))]
fn are_static(types: &[Shared<Ty>]) -> bool
    ensures { IsTrue result ↔ AreStatic (tys types.now) }
{
    for t in types {
        if !is_static(t.get()) {
            return false;
        }
    }
    true
}

#[cycle(statics)]
#[tactic(auto, using(mono_syntax::proofs::Parts::parts))]
fn have_static(members: &[Field]) -> bool
    ensures { IsTrue result ↔ HaveStatic (fields members.now) }
{
    for member in members {
        if !is_static(member.ty.get()) {
            return false;
        }
    }
    true
}
