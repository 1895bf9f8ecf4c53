ghost use Rattle.std.specs.Prelude.{◌≡◌, IfOk, IsTrue, ◌↔◌};

use crate::precision::precise;
use mono_list::Shared;
use mono_syntax::{Field, Ty, TyKind};
use sqlite_items::Items;
use std::alloc::{AllocError, Global};

/// The same type, for another owner. Its parts are shared and not copied.
pub fn copy_type(alloc: Global, a: &Ty) -> Result<Ty, AllocError>
    ensures { IfOk result (λ copy. copy ≡ a.now) }
{
    match &a.kind {
        TyKind::Dyn => Ok(Ty { kind: TyKind::Dyn }),
        TyKind::Int => Ok(Ty { kind: TyKind::Int }),
        TyKind::Bool => Ok(Ty { kind: TyKind::Bool }),
        TyKind::Str => Ok(Ty { kind: TyKind::Str }),
        TyKind::Nil => Ok(Ty { kind: TyKind::Nil }),
        TyKind::Fun(params, out) => {
            let params = share_types(alloc, params.as_slice())?;
            let out = out.share()?;
            Ok(Ty {
                kind: TyKind::Fun(params, out),
            })
        }
        TyKind::Obj(members) => {
            let members = share_fields(alloc, members.as_slice())?;
            Ok(Ty {
                kind: TyKind::Obj(members),
            })
        }
    }
}

/// Whether both are one type.
#[tactic(auto, using(crate::proofs::Order::order))]
pub fn same_type(a: &Ty, b: &Ty) -> bool
    ensures { IsTrue result ↔ (a.now ≡ b.now) }
{
    precise(a, b) && precise(b, a)
}

fn share_types(alloc: Global, types: &[Shared<Ty>]) -> Result<Items<Shared<Ty>>, AllocError>
    ensures { IfOk result (λ copies. copies ≡ types.now) }
{
    let mut copies = Items::new(alloc);
    for t in types {
        copies.push(t.share()?)?;
    }
    Ok(copies)
}

fn share_fields(alloc: Global, members: &[Field]) -> Result<Items<Field>, AllocError>
    ensures { IfOk result (λ copies. copies ≡ members.now) }
{
    let mut copies = Items::new(alloc);
    for member in members {
        let name = member.name.share()?;
        let ty = member.ty.share()?;
        copies.push(Field { name, ty })?;
    }
    Ok(copies)
}
