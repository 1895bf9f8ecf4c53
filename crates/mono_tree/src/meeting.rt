ghost use Rattle.std.specs.Prelude.{◌≡◌, ◌↔◌, IfOk, IfSome, IsNone};
ghost use Rattle.std.specs.Option.{option_map};
ghost use Rattle.mono_syntax.specs.TyView.{tys, fields};
ghost use Rattle.mono_tree.specs.IsType.{IsType};
ghost use Rattle.mono_tree.specs.Meet.{IsMeet, AreApart, meet_of, meet_all, meet_fields};

use crate::copy::copy_type;
use crate::precision::same_name;
use mono_list::Shared;
use mono_syntax::{Field, Ty, TyKind};
use sqlite_items::Items;
use std::alloc::{AllocError, Global};

/// The meet of two types, if there is one. Where one side is `Dyn` the other is shared and not copied.
pub fn meet(alloc: Global, a: &Ty, b: &Ty) -> Result<Option<Ty>, AllocError>
    ensures greatest { IfOk result (λ found. IfSome found (λ m. IsMeet m a.now b.now)) }
    ensures apart { IfOk result (λ found. IsNone found ↔ AreApart a.now b.now) }
    ensures kept { IfOk result (λ found. IfSome found (λ m. IsType a.now → IsType b.now → IsType m)) }
{
    met(alloc, a, b)
}

#[cycle(meets)]
fn met(alloc: Global, a: &Ty, b: &Ty) -> Result<Option<Ty>, AllocError>
    ensures { IfOk result (λ found. found ≡ meet_of a.now b.now) }
{
    match (&a.kind, &b.kind) {
        (TyKind::Dyn, _) => Ok(Some(copy_type(alloc, b)?)),
        (_, TyKind::Dyn) => Ok(Some(copy_type(alloc, a)?)),
        (TyKind::Int, TyKind::Int) => Ok(Some(Ty { kind: TyKind::Int })),
        (TyKind::Bool, TyKind::Bool) => Ok(Some(Ty { kind: TyKind::Bool })),
        (TyKind::Str, TyKind::Str) => Ok(Some(Ty { kind: TyKind::Str })),
        (TyKind::Nil, TyKind::Nil) => Ok(Some(Ty { kind: TyKind::Nil })),
        (TyKind::Fun(params, out), TyKind::Fun(others, other)) => {
            let Some(params) = met_all(alloc, params.as_slice(), others.as_slice())? else {
                return Ok(None);
            };
            let Some(out) = met_part(alloc, out, other)? else {
                return Ok(None);
            };
            Ok(Some(Ty {
                kind: TyKind::Fun(params, out),
            }))
        }
        (TyKind::Obj(members), TyKind::Obj(others)) => {
            let Some(members) = met_fields(alloc, members.as_slice(), others.as_slice())? else {
                return Ok(None);
            };
            Ok(Some(Ty {
                kind: TyKind::Obj(members),
            }))
        }
        _ => Ok(None),
    }
}

/// The meet of two parts; where one of them is `Dyn` it is the other itself.
#[cycle(meets)]
fn met_part(alloc: Global, a: &Shared<Ty>, b: &Shared<Ty>) -> Result<Option<Shared<Ty>>, AllocError>
    ensures { IfOk result (λ found. found ≡ meet_of a.now b.now) }
{
    match (&a.get().kind, &b.get().kind) {
        (TyKind::Dyn, _) => Ok(Some(b.share()?)),
        (_, TyKind::Dyn) => Ok(Some(a.share()?)),
        _ => {
            let Some(m) = met(alloc, a.get(), b.get())? else {
                return Ok(None);
            };
            Ok(Some(Shared::new(alloc, m)?))
        }
    }
}

#[cycle(meets)]
#[tactic(auto, using(crate::proofs::MeetTurns::all_turns))]
fn met_all(
    alloc: Global,
    types: &[Shared<Ty>],
    others: &[Shared<Ty>],
) -> Result<Option<Items<Shared<Ty>>>, AllocError>
    ensures { IfOk result (λ found. option_map tys found ≡ meet_all (tys types.now) (tys others.now)) }
{
    if types.len() != others.len() {
        return Ok(None);
    }
    let mut made = Items::new(alloc);
    for (a, b) in types.iter().zip(others) {
        let Some(m) = met_part(alloc, a, b)? else {
            return Ok(None);
        };
        made.push(m)?;
    }
    Ok(Some(made))
}

#[cycle(meets)]
#[tactic(auto, using(crate::proofs::MeetTurns::fields_turns))]
fn met_fields(
    alloc: Global,
    members: &[Field],
    others: &[Field],
) -> Result<Option<Items<Field>>, AllocError>
    ensures { IfOk result (λ found. option_map fields found ≡ meet_fields (fields members.now) (fields others.now)) }
{
    if members.len() != others.len() {
        return Ok(None);
    }
    let mut made = Items::new(alloc);
    for (a, b) in members.iter().zip(others) {
        if !same_name(&a.name, &b.name) {
            return Ok(None);
        }
        let Some(ty) = met_part(alloc, &a.ty, &b.ty)? else {
            return Ok(None);
        };
        let name = a.name.share()?;
        made.push(Field { name, ty })?;
    }
    Ok(Some(made))
}
