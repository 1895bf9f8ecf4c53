ghost use Rattle.std.specs.Prelude.{◌≡◌, ◌↔◌, IsTrue, slice_get};
ghost use Rattle.mono_syntax.specs.Ty.{Ty};
ghost use Rattle.mono_syntax.specs.TyView.{tys, fields};
ghost use Rattle.mono_tree.specs.Sizes.{IsTooLarge};
ghost use Rattle.mono_tree.specs.computed.CountedSizes.{measured, nothing};
ghost use Rattle.type_shapes.specs.computed.CountedParts.{sizes_onto, fields_onto, size_more, sizes_at};
ghost use Rattle.type_shapes.specs.Shows.{kids, AreNamed};

use indexmap::IndexSet;
use mono_list::Shared;
use mono_syntax::{Field, Ty, TyKind};
use mono_tree::Size;

/// The size of a type.
#[cycle(measure)]
#[tactic(auto, using(crate::proofs::SizeTurns::size_turns))]
fn size_of(ty: &Ty) -> Size
    ensures { result ≡ measured ty.now }
{
    match &ty.kind {
        TyKind::Fun(params, out) => sizes_of(params.as_slice())
            .joined(size_of(out.get()))
            .grown(),
        TyKind::Obj(members) => sizes_of_fields(members.as_slice()).grown(),
        _ => Size::LEAF,
    }
}

/// The size of parameters' types, without their function.
#[cycle(measure)]
#[tactic(auto, using(mono_syntax::proofs::Parts::parts))]
fn sizes_of(types: &[Shared<Ty>]) -> Size
    ensures { result ≡ sizes_onto nothing (tys types.now) }
{
    let mut parts = Size::NOTHING;
    for ty in types {
        parts = parts.joined(size_of(ty.get()));
    }
    parts
}

/// The size of fields' types, without their object.
#[cycle(measure)]
#[tactic(auto, using(mono_syntax::proofs::Parts::parts))]
fn sizes_of_fields(members: &[Field]) -> Size
    ensures { result ≡ fields_onto nothing (fields members.now) }
{
    let mut parts = Size::NOTHING;
    for member in members {
        parts = parts.joined(size_of(member.ty.get()));
    }
    parts
}

/// Whether a type is over the limits of a type.
pub fn is_too_large(ty: &Ty) -> bool
    ensures { IsTrue result ↔ IsTooLarge ty.now }
{
    size_of(ty).is_too_large()
}

/// Some parts and the one at a place of the list.
fn size_more(set: &IndexSet<Ty>, size: Size, part: u16) -> Size
    ensures { result ≡ size_more size (slice_get set.now.keys part) }
{
    match set.get_index(part as usize) {
        Some(ty) => size.joined(size_of(ty)),
        None => size,
    }
}

/// The size of the types at some places of the list.
fn sizes_at(set: &IndexSet<Ty>, parts: &[u16]) -> Size
    ensures { result ≡ sizes_at set.now.keys nothing parts.now }
{
    let mut size = Size::NOTHING;
    for part in parts {
        size = size_more(set, size, *part);
    }
    size
}

/// Whether the type whose parts stand at these places of the list is over the limits of a type. The type needn't be made for it.
pub fn is_too_large_by_parts(set: &IndexSet<Ty>, parts: &[u16]) -> bool
    ensures { (m : Ty) → AreNamed set.now.keys parts.now (kids m) → (IsTrue result ↔ IsTooLarge m) }
{
    sizes_at(set, parts).grown().is_too_large()
}
