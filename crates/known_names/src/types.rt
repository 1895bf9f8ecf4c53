ghost use Rattle.std.specs.Prelude.{◌≡◌, IfOk};
ghost use Rattle.std.specs.Option.{option_copied};
ghost use Rattle.mono_syntax.specs.TyView.{ty_of};
ghost use Rattle.mono_tree.specs.Meet.{meet_of};
ghost use Rattle.mono_tree.specs.Precision.{precise};
ghost use Rattle.mono_tree.specs.Static.{is_static};
ghost use Rattle.known_names.specs.computed.TypeTests.{type_or_dyn, type_at, is_dyn, consistent};

use mono_list::Shared;
use mono_syntax::{Ty, TyAt, TyKind};
use std::alloc::{AllocError, Global};

/// A type of this form for its first owner.
pub fn new_type(alloc: Global, kind: TyKind) -> Result<Shared<Ty>, AllocError>
    ensures { IfOk result (λ ty. ty ≡ ty_of kind) }
{
    Shared::new(alloc, Ty { kind })
}

/// The type, and `Dyn` where there is none.
pub fn type_or_dyn(alloc: Global, found: Option<Shared<Ty>>) -> Result<Shared<Ty>, AllocError>
    ensures { IfOk result (λ ty. ty ≡ type_or_dyn found) }
{
    match found {
        Some(ty) => Ok(ty),
        None => new_type(alloc, TyKind::Dyn),
    }
}

/// The type at a position of the list, and `Dyn` where none stands there.
pub fn type_at(
    alloc: Global,
    types: &[Shared<Ty>],
    at: Option<&TyAt>,
) -> Result<Shared<Ty>, AllocError>
    ensures { IfOk result (λ ty. ty ≡ type_at types.now (option_copied at.entry)) }
{
    let Some(at) = at else {
        return new_type(alloc, TyKind::Dyn);
    };
    match types.get(at.0 as usize) {
        Some(ty) => ty.share(),
        None => new_type(alloc, TyKind::Dyn),
    }
}

/// Whether the type is `Dyn`.
pub fn is_dyn(ty: &Ty) -> bool
    ensures { result ≡ is_dyn ty.now }
{
    match &ty.kind {
        TyKind::Dyn => true,
        _ => false,
    }
}

/// Whether the first type is at least as precise as the second.
pub fn is_precise(a: &Ty, b: &Ty) -> bool
    ensures { result ≡ precise a.now b.now }
{
    mono_tree::precise(a, b)
}

/// Whether no `Dyn` is inside.
pub fn is_fully_static(ty: &Ty) -> bool
    ensures { result ≡ is_static ty.now }
{
    mono_tree::is_static(ty)
}

fn met(alloc: Global, a: &Ty, b: &Ty) -> Result<Option<Ty>, AllocError>
    ensures { IfOk result (λ m. m ≡ meet_of a.now b.now) }
{
    mono_tree::meet(alloc, a, b)
}

/// Whether the two types have a meet.
pub fn is_consistent(alloc: Global, a: &Ty, b: &Ty) -> Result<bool, AllocError>
    ensures { IfOk result (λ found. found ≡ consistent a.now b.now) }
{
    let found = met(alloc, a, b)?;
    Ok(found.is_some())
}
