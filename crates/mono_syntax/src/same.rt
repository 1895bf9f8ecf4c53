ghost use Rattle.std.specs.Prelude.{◌≡◌, fold, bytes_eq};
ghost use Rattle.mono_syntax.specs.TyView.{tys, fields};
ghost use Rattle.mono_syntax.specs.computed.TyEq.{ty_eq, tys_eq, fields_eq, ty_fed, tys_fed, fields_fed};

use crate::name::Name;
use crate::tree::{Field, Ty, TyKind};
use mono_list::Shared;
use std::hash::{Hash, Hasher};

impl PartialEq for Ty {
    ghost use Rattle.mono_syntax.specs.computed.TyEq.{ty_eq};
    ghost use Rattle.mono_syntax.specs.TyEqLaws.{ty_eq-partial};

    ghost eq = { ty_eq };

    ghost laws = { ty_eq-partial };

    fn eq(&self, other: &Ty) -> bool {
        same_node(self, other)
    }
}

impl Eq for Ty {
    ghost use Rattle.mono_syntax.specs.TyEqLaws.{ty_eq-laws};

    ghost laws = { ty_eq-laws };
}

impl Hash for Ty {
    ghost use Rattle.mono_syntax.specs.computed.TyEq.{ty_fed};
    ghost use Rattle.mono_syntax.specs.TyEqLaws.{ty_fed-alike};

    ghost hash_input = { ty_fed };

    ghost respects_eq = { ty_fed-alike };

    fn hash<H: Hasher>(&self, state: &mut H) {
        feed_node(self, state);
    }
}

#[cycle(same)]
fn same_node(a: &Ty, b: &Ty) -> bool
    ensures { result ≡ ty_eq a.now b.now }
{
    match (&a.kind, &b.kind) {
        (TyKind::Dyn, TyKind::Dyn) => true,
        (TyKind::Int, TyKind::Int) => true,
        (TyKind::Bool, TyKind::Bool) => true,
        (TyKind::Str, TyKind::Str) => true,
        (TyKind::Nil, TyKind::Nil) => true,
        (TyKind::Fun(params, out), TyKind::Fun(others, other)) => {
            are_same(params.as_slice(), others.as_slice()) && same_node(out.get(), other.get())
        }
        (TyKind::Obj(members), TyKind::Obj(others)) => {
            have_same(members.as_slice(), others.as_slice())
        }
        _ => false,
    }
}

#[cycle(same)]
#[tactic(auto, using(crate::proofs::SameTurns::same_turns))]
fn are_same(types: &[Shared<Ty>], others: &[Shared<Ty>]) -> bool
    ensures { result ≡ tys_eq (tys types.now) (tys others.now) }
{
    if types.len() != others.len() {
        return false;
    }
    for (a, b) in types.iter().zip(others) {
        if !same_node(a.get(), b.get()) {
            return false;
        }
    }
    true
}

#[cycle(same)]
#[tactic(auto, using(crate::proofs::SameTurns::same_turns))]
fn have_same(members: &[Field], others: &[Field]) -> bool
    ensures { result ≡ fields_eq (fields members.now) (fields others.now) }
{
    if members.len() != others.len() {
        return false;
    }
    for (a, b) in members.iter().zip(others) {
        if !same_name(&a.name, &b.name) || !same_node(a.ty.get(), b.ty.get()) {
            return false;
        }
    }
    true
}

fn same_name(a: &Name, b: &Name) -> bool
    ensures { result ≡ bytes_eq a.now b.now }
{
    a.as_slice() == b.as_slice()
}

#[cycle(feed)]
#[tactic(auto, using(crate::proofs::FeedTurns::fed, crate::proofs::Parts::parts))]
fn feed_node<H: Hasher>(a: &Ty, state: &mut H)
    ensures { state.new ≡ fold H.write state.old (ty_fed a.now) }
{
    match &a.kind {
        TyKind::Dyn => state.write_u8(0),
        TyKind::Int => state.write_u8(1),
        TyKind::Bool => state.write_u8(2),
        TyKind::Str => state.write_u8(3),
        TyKind::Nil => state.write_u8(4),
        TyKind::Fun(params, out) => {
            state.write_u8(5);
            feed_all(params.as_slice(), state);
            feed_node(out.get(), state);
        }
        TyKind::Obj(members) => {
            state.write_u8(6);
            feed_fields(members.as_slice(), state);
        }
    }
}

#[cycle(feed)]
#[tactic(auto, using(crate::proofs::FeedTurns::fed, crate::proofs::Parts::parts))]
fn feed_all<H: Hasher>(types: &[Shared<Ty>], state: &mut H)
    ensures { state.new ≡ fold H.write state.old (tys_fed (tys types.now)) }
{
    for ty in types {
        feed_node(ty.get(), state);
    }
}

#[cycle(feed)]
#[tactic(auto, using(crate::proofs::FeedTurns::fed, crate::proofs::Parts::parts))]
fn feed_fields<H: Hasher>(members: &[Field], state: &mut H)
    ensures { state.new ≡ fold H.write state.old (fields_fed (fields members.now)) }
{
    for member in members {
        state.write(member.name.as_slice());
        feed_node(member.ty.get(), state);
    }
}
