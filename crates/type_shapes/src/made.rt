ghost use Rattle.std.specs.Prelude.{◌≡◌, Some, IfOk};
ghost use Rattle.type_shapes.specs.computed.MadeTypes.{types_at, fun_of, obj_of, typed};

use crate::shape::{Head, Shape};
use indexmap::IndexSet;
use mono_list::Shared;
use mono_syntax::{Field, Name, Ty, TyKind};
use mono_tree::copy_type;
use sqlite_items::Items;
use std::alloc::{AllocError, Global};

#[tactic(auto, using(crate::proofs::MadeTurns::types_turns))]
fn types_at(
    alloc: Global,
    set: &IndexSet<Ty>,
    parts: &[u16],
) -> Result<Option<Items<Shared<Ty>>>, AllocError>
    ensures { IfOk result (λ found. found ≡ types_at set.now.keys parts.now) }
{
    let mut made = Items::new(alloc);
    for part in parts {
        let Some(ty) = set.get_index(*part as usize) else {
            return Ok(None);
        };
        let copy = copy_type(alloc, ty)?;
        let shared = Shared::new(alloc, copy)?;
        made.push(shared)?;
    }
    Ok(Some(made))
}

fn function_type(parts: Items<Shared<Ty>>) -> Option<Ty>
    ensures { result ≡ fun_of (Some parts) }
{
    let mut parts = parts;
    if parts.is_empty() {
        return None;
    }
    let out = parts.remove(0);
    Some(Ty {
        kind: TyKind::Fun(parts, out),
    })
}

#[tactic(auto, using(crate::proofs::MadeTurns::fields_turns))]
fn object_type(
    alloc: Global,
    names: &[Name],
    types: &[Shared<Ty>],
) -> Result<Option<Ty>, AllocError>
    ensures { IfOk result (λ made. made ≡ obj_of (Some names.now) (Some types.now)) }
{
    let mut made = Items::new(alloc);
    for (name, ty) in names.iter().zip(types) {
        let name = name.share()?;
        let ty = ty.share()?;
        made.push(Field { name, ty })?;
    }
    Ok(Some(Ty {
        kind: TyKind::Obj(made),
    }))
}

/// The type of a shape.
pub fn made_type(
    alloc: Global,
    names: &[Items<Name>],
    set: &IndexSet<Ty>,
    shape: &Shape,
) -> Result<Option<Ty>, AllocError>
    ensures { IfOk result (λ made. made ≡ typed names.now set.now.keys shape.now) }
{
    match shape.head {
        Head::Dyn => Ok(Some(Ty { kind: TyKind::Dyn })),
        Head::Int => Ok(Some(Ty { kind: TyKind::Int })),
        Head::Bool => Ok(Some(Ty { kind: TyKind::Bool })),
        Head::Str => Ok(Some(Ty { kind: TyKind::Str })),
        Head::Nil => Ok(Some(Ty { kind: TyKind::Nil })),
        Head::Fun => {
            let Some(parts) = types_at(alloc, set, shape.parts.as_slice())? else {
                return Ok(None);
            };
            Ok(function_type(parts))
        }
        Head::Obj(group) => {
            let Some(list) = names.get(group as usize) else {
                return Ok(None);
            };
            let Some(parts) = types_at(alloc, set, shape.parts.as_slice())? else {
                return Ok(None);
            };
            object_type(alloc, list.as_slice(), parts.as_slice())
        }
    }
}
