ghost use Rattle.std.specs.Prelude.{ℕ, ◌≡◌, ◌++◌, ◌∷◌, [], Some, List, Contains, slice_get, IfOk, OnOk, IsTrue, ◌↔◌, IfSome, IfNone};
ghost use Rattle.mono_syntax.specs.Ty.{Ty};
ghost use Rattle.mono_syntax.specs.TyView.{fields};
ghost use Rattle.mono_tree.specs.ClosedList.{IsOfField, IsPart};
ghost use Rattle.mono_tree.specs.FieldNames.{names_of};
ghost use Rattle.type_shapes.specs.computed.ByNumber.{with_head};
ghost use Rattle.type_shapes.specs.Limits.{IsWithinLimits};
ghost use Rattle.type_shapes.specs.Numbered.{IsKept};
ghost use Rattle.type_shapes.specs.Shows.{types_of, AreNamed, Shows, IsOnce};

use crate::shape::{Head, Shape};
use indexmap::IndexSet;
use mono_list::Shared;
use mono_syntax::{Field, Name, Ty, TyKind};
use sqlite_items::Items;
use std::alloc::{AllocError, Global};

/// The number of a type of the list.
fn number_in(set: &IndexSet<Ty>, ty: &Ty) -> u16
    requires few { IsWithinLimits set.now.keys }
    requires there { Contains set.now.keys ty.now }
    ensures { slice_get set.now.keys result ≡ Some ty.now }
{
    set.get_index_of(ty).unwrap() as u16
}

/// The numbers of some types behind those that are there.
fn numbers_onto(
    set: &IndexSet<Ty>,
    made: Items<u16>,
    types: &[Shared<Ty>],
) -> Result<Items<u16>, AllocError>
    requires few { IsWithinLimits set.now.keys }
    requires there { (t : Ty) → Contains types.now t → Contains set.now.keys t }
    ensures { IfOk result (λ ns. (us : List Ty) → AreNamed set.now.keys made us → AreNamed set.now.keys ns (us ++ types.now)) }
{
    let mut made = made;
    for ty in types {
        let n = number_in(set, ty.get());
        made.push(n)?;
    }
    Ok(made)
}

/// The numbers of the types of fields.
fn numbers_of_fields(
    alloc: Global,
    set: &IndexSet<Ty>,
    members: &[Field],
) -> Result<Items<u16>, AllocError>
    requires few { IsWithinLimits set.now.keys }
    requires there { (t : Ty) → IsOfField t (fields members.now) → Contains set.now.keys t }
    ensures { IfOk result (λ ns. AreNamed set.now.keys ns (types_of (fields members.now))) }
{
    let mut made = Items::new(alloc);
    for member in members {
        let n = number_in(set, member.ty.get());
        made.push(n)?;
    }
    Ok(made)
}

/// Whether a list has the names of the fields, in their order.
fn same_names(list: &[Name], members: &[Field]) -> bool
    ensures { IsTrue result ↔ (list.now ≡ names_of (fields members.now)) }
{
    if list.len() != members.len() {
        return false;
    }
    for (name, member) in list.iter().zip(members) {
        if name.as_slice() != member.name.as_slice() {
            return false;
        }
    }
    true
}

/// The names of the fields.
fn names_list(alloc: Global, members: &[Field]) -> Result<Items<Name>, AllocError>
    ensures { IfOk result (λ list. list ≡ names_of (fields members.now)) }
{
    let mut list = Items::new(alloc);
    for member in members {
        list.push(member.name.share()?)?;
    }
    Ok(list)
}

/// Where the fields' names stand in their lists.
fn group_in(names: &[Items<Name>], members: &[Field]) -> Option<usize>
    ensures found { IfSome result (λ g. slice_get names.now g ≡ Some (names_of (fields members.now))) }
    ensures none { IfNone result ((k : ℕ) → slice_get names.now k ≡ Some (names_of (fields members.now)) → ⊥) }
{
    for (i, list) in names.iter().enumerate() {
        if same_names(list.as_slice(), members) {
            return Some(i);
        }
    }
    None
}

/// The number of the fields' names in their lists, which get them at their end where they aren't there yet.
fn group_of(
    alloc: Global,
    names: &mut Vec<Items<Name>>,
    members: &[Field],
) -> Result<usize, AllocError>
    requires { IsOnce names.old.items }
    ensures at { IfOk result (λ g. slice_get names.new.items g ≡ Some (names_of (fields members.now))) }
    ensures once { OnOk result (IsOnce names.new.items) }
    ensures kept { OnOk result (IsKept names.old.items names.new.items) }
{
    if let Some(at) = group_in(names.as_slice(), members) {
        return Ok(at);
    }
    let at = names.len();
    let list = names_list(alloc, members)?;
    names.push(list)?;
    Ok(at)
}

/// The shape of a type whose parts are in the list. The field names of an object go to the end of the lists of names, unless they are
/// there already.
pub fn shape_of(
    alloc: Global,
    names: &mut Vec<Items<Name>>,
    set: &IndexSet<Ty>,
    ty: &Ty,
) -> Result<Shape, AllocError>
    requires few { IsWithinLimits set.now.keys }
    requires parts { (p : Ty) → IsPart p ty.now → Contains set.now.keys p }
    requires once { IsOnce names.old.items }
    ensures shows { IfOk result (λ s. Shows names.new.items set.now.keys s ty.now) }
    ensures once { OnOk result (IsOnce names.new.items) }
    ensures kept { OnOk result (IsKept names.old.items names.new.items) }
{
    match &ty.kind {
        TyKind::Dyn => Ok(leaf(alloc, Head::Dyn)),
        TyKind::Int => Ok(leaf(alloc, Head::Int)),
        TyKind::Bool => Ok(leaf(alloc, Head::Bool)),
        TyKind::Str => Ok(leaf(alloc, Head::Str)),
        TyKind::Nil => Ok(leaf(alloc, Head::Nil)),
        TyKind::Fun(params, out) => {
            let parts = function_parts(alloc, set, params.as_slice(), out.get())?;
            Ok(Shape {
                head: Head::Fun,
                parts,
            })
        }
        TyKind::Obj(members) => {
            let parts = numbers_of_fields(alloc, set, members.as_slice())?;
            let group = group_of(alloc, names, members.as_slice())?;
            let head = Head::Obj(group);
            Ok(Shape { head, parts })
        }
    }
}

/// The shape of a type without parts.
fn leaf(alloc: Global, head: Head) -> Shape
    ensures { result ≡ with_head head [] }
{
    let parts = Items::new(alloc);
    Shape { head, parts }
}

/// The number of a result, and then those of the parameters.
fn function_parts(
    alloc: Global,
    set: &IndexSet<Ty>,
    params: &[Shared<Ty>],
    out: &Ty,
) -> Result<Items<u16>, AllocError>
    requires few { IsWithinLimits set.now.keys }
    requires there { (t : Ty) → Contains (out.now ∷ params.now) t → Contains set.now.keys t }
    ensures { IfOk result (λ ns. AreNamed set.now.keys ns (out.now ∷ params.now)) }
{
    let mut first = Items::new(alloc);
    let n = number_in(set, out);
    first.push(n)?;
    numbers_onto(set, first, params)
}
