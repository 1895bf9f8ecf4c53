ghost use Rattle.std.specs.Prelude.{◌≡◌, IfOk};
ghost use Rattle.mono_syntax.specs.TyView.{fields};
ghost use Rattle.mono_tree.specs.CastScripts.{fields_of};
ghost use Rattle.mono_tree.specs.Precision.{precise};
ghost use Rattle.mono_tree.specs.Meet.{meet_of};
ghost use Rattle.mono_tree.specs.Static.{is_static};
ghost use Rattle.cast_machine.specs.Cells.{same_type, is_dyn};

use mono_list::Shared;
use mono_syntax::{Field, Ty, TyKind};
use std::alloc::{AllocError, Global};

/// Whether the first type is at least as precise as the second.
pub fn is_precise(a: &Ty, b: &Ty) -> bool
    ensures { result ≡ precise a.now b.now }
{
    mono_tree::precise(a, b)
}

/// Whether two types are one.
pub fn is_same(a: &Ty, b: &Ty) -> bool
    ensures { result ≡ same_type a.now b.now }
{
    is_precise(a, b) && is_precise(b, a)
}

/// Whether no Dyn is inside.
pub fn is_fully_static(a: &Ty) -> bool
    ensures { result ≡ is_static a.now }
{
    mono_tree::is_static(a)
}

/// Whether the type is Dyn.
pub fn is_dyn(a: &Ty) -> bool
    ensures { result ≡ is_dyn a.now }
{
    matches!(&a.kind, TyKind::Dyn)
}

fn met(alloc: Global, a: &Ty, b: &Ty) -> Result<Option<Ty>, AllocError>
    ensures { IfOk result (λ m. m ≡ meet_of a.now b.now) }
{
    mono_tree::meet(alloc, a, b)
}

/// The meet of two types, shared.
pub fn meet(alloc: Global, a: &Ty, b: &Ty) -> Result<Option<Shared<Ty>>, AllocError>
    ensures { IfOk result (λ m. m ≡ meet_of a.now b.now) }
{
    match met(alloc, a, b)? {
        None => Ok(None),
        Some(m) => {
            let m = Shared::new(alloc, m)?;
            Ok(Some(m))
        }
    }
}

/// The fields of an object type.
pub fn members_of(ty: &Ty) -> &[Field]
    ensures { fields result.now ≡ fields_of ty.now }
{
    match &ty.kind {
        TyKind::Obj(members) => members.as_slice(),
        _ => &[],
    }
}
