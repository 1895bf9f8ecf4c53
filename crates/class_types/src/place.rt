ghost use Rattle.std.specs.Prelude.{◌≡◌, ℕ, Some, None, IfOk, IfSome, IfNone, slice_get};
ghost use Rattle.mono_syntax.specs.TyView.{ty_of};
ghost use Rattle.mono_tree.specs.ClosedList.{AreDistinct, base_types};
ghost use Rattle.class_types.specs.Known.{Begins};
ghost use Rattle.class_types.specs.Placed.{StandAt};
ghost use Rattle.type_list.specs.computed.TypeList.{with_type};

use mono_list::Shared;
use mono_syntax::{Ty, TyAt, TyKind};
use sqlite_items::Items;
use std::alloc::{AllocError, Global};
use type_list::{Placed, TypeList, with_type};

/// The position of a type, which is added where it isn't there.
pub fn placed(types: TypeList, ty: Shared<Ty>) -> Result<(TyAt, TypeList), AllocError>
    requires { AreDistinct types }
    ensures at { IfOk result (λ r. slice_get r.1 r.0.0 ≡ Some ty) }
    ensures begins { IfOk result (λ r. Begins types r.1) }
    ensures distinct { IfOk result (λ r. AreDistinct r.1) }
{
    let Placed { at, types } = with_type(types, &ty)?;
    Ok((at, types))
}

fn base(types: TypeList, alloc: Global, kind: TyKind) -> Result<TypeList, AllocError>
    ensures { IfOk result (λ r. r ≡ (with_type types (ty_of kind)).types) }
{
    let ty = Shared::new(alloc, Ty { kind })?;
    let Placed { at: _, types } = with_type(types, &ty)?;
    Ok(types)
}

/// `Dyn`, `int`, `bool`, `str` and `None`.
pub fn base_types(alloc: Global) -> Result<TypeList, AllocError>
    ensures { IfOk result (λ r. r ≡ base_types) }
{
    let types = base(TypeList::new(alloc), alloc, TyKind::Dyn)?;
    let types = base(types, alloc, TyKind::Int)?;
    let types = base(types, alloc, TyKind::Bool)?;
    let types = base(types, alloc, TyKind::Str)?;
    base(types, alloc, TyKind::Nil)
}

/// Types, and the positions of some of them.
#[derive(Drop)]
pub struct Positions {
    pub types: TypeList,
    pub at: Items<TyAt>,
}

/// The positions of the types of classes, where each class has one.
pub fn all_placed(
    alloc: Global,
    types: TypeList,
    own: &[Option<Shared<Ty>>],
) -> Result<Option<Positions>, AllocError>
    requires { AreDistinct types }
    ensures none { IfOk result (λ r. IfNone r ((i : ℕ) × (slice_get own.now i ≡ Some None))) }
    ensures stand { IfOk result (λ r. IfSome r (λ p. StandAt p.types own.now p.at)) }
    ensures begins { IfOk result (λ r. IfSome r (λ p. Begins types p.types)) }
    ensures distinct { IfOk result (λ r. IfSome r (λ p. AreDistinct p.types)) }
{
    let mut types = types;
    let mut at = Items::new(alloc);
    for each in own {
        let Some(ty) = each else {
            return Ok(None);
        };
        let (place, more) = placed(types, ty.share()?)?;
        types = more;
        at.push(place)?;
    }
    Ok(Some(Positions { types, at }))
}
