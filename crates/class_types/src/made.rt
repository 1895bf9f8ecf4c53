ghost use Rattle.std.specs.Prelude.{◌≡◌, ◌≤◌, length, IfOk, MatchOption, Some, None};
ghost use Rattle.std.specs.Option.{option_map, option_copied};
ghost use Rattle.mono_syntax.specs.AnnView.{anns};
ghost use Rattle.mono_syntax.specs.TyView.{tys, fields, ty_of};
ghost use Rattle.class_types.specs.computed.Made.{look, type_by, types_by, fields_by, class_by, any_by, params_by, function_by};
ghost use Rattle.class_types.specs.computed.Order.{place_for};
ghost use Rattle.script_rules.specs.Writes.{put_field, in_order};

use mono_list::Shared;
use mono_syntax::{
    Ann, AnnForm, ClassDef, Field, FieldDef, FuncDef, Name, Param, Ty, TyKind, Word,
};
use name_places::NamePlaces;
use sqlite_items::Items;
use std::alloc::{AllocError, Global};
use std::cmp::Ordering;

fn whole(alloc: Global, kind: TyKind) -> Result<Option<Shared<Ty>>, AllocError>
    ensures { IfOk result (λ r. r ≡ Some (ty_of kind)) }
{
    let ty = Shared::new(alloc, Ty { kind })?;
    Ok(Some(ty))
}

/// The type of a class by its name.
fn class_type(
    names: &NamePlaces,
    own: &[Option<Shared<Ty>>],
    word: &Word,
) -> Result<Option<Shared<Ty>>, AllocError>
    ensures { IfOk result (λ r. r ≡ look names.now own.now None word.now.text) }
{
    let Some(at) = names.place(&word.text) else {
        return Ok(None);
    };
    match own.get(at) {
        Some(Some(ty)) => Ok(Some(ty.share()?)),
        _ => Ok(None),
    }
}

/// The type that an annotation writes, where the types of its classes are known.
#[cycle(made)]
pub fn type_made(
    alloc: Global,
    names: &NamePlaces,
    own: &[Option<Shared<Ty>>],
    ann: &Ann,
) -> Result<Option<Shared<Ty>>, AllocError>
    ensures { IfOk result (λ r. r ≡ type_by (look names.now own.now None) ann.now) }
{
    match &ann.what {
        AnnForm::Dyn => whole(alloc, TyKind::Dyn),
        AnnForm::Int => whole(alloc, TyKind::Int),
        AnnForm::Bool => whole(alloc, TyKind::Bool),
        AnnForm::Str => whole(alloc, TyKind::Str),
        AnnForm::Nil => whole(alloc, TyKind::Nil),
        AnnForm::Class(word) => class_type(names, own, word),
        AnnForm::Fun(params, out) => {
            let Some(params) = types_made(alloc, names, own, params.as_slice())? else {
                return Ok(None);
            };
            let Some(out) = type_made(alloc, names, own, out.get())? else {
                return Ok(None);
            };
            whole(alloc, TyKind::Fun(params, out))
        }
    }
}

#[cycle(made)]
#[tactic(auto, using(mono_syntax::proofs::Parts::parts, crate::proofs::MadeTurns::types_turns))]
fn types_made(
    alloc: Global,
    names: &NamePlaces,
    own: &[Option<Shared<Ty>>],
    list: &[Ann],
) -> Result<Option<Items<Shared<Ty>>>, AllocError>
    ensures { IfOk result (λ r. option_map tys r ≡ types_by (look names.now own.now None) (anns list.now)) }
{
    let mut made = Items::new(alloc);
    for ann in list {
        let Some(ty) = type_made(alloc, names, own, ann)? else {
            return Ok(None);
        };
        made.push(ty)?;
    }
    Ok(Some(made))
}

/// The fields of a class with their types, in declared order.
#[tactic(auto, using(crate::proofs::MadeTurns::fields_turns))]
fn fields_made(
    alloc: Global,
    names: &NamePlaces,
    own: &[Option<Shared<Ty>>],
    list: &[FieldDef],
) -> Result<Option<Items<Field>>, AllocError>
    ensures { IfOk result (λ r. option_map fields r ≡ fields_by (look names.now own.now None) list.now) }
{
    let mut made = Items::new(alloc);
    for field in list {
        let Some(ty) = type_made(alloc, names, own, &field.ann)? else {
            return Ok(None);
        };
        let name = field.name.text.share()?;
        made.push(Field { name, ty })?;
    }
    Ok(Some(made))
}

/// How many fields stand before this name, where fields are in the byte order of their names.
#[tactic(auto, using(crate::proofs::OrderTurns::place_turns))]
fn place_for(sorted: &[Field], name: &Name) -> usize
    ensures within { result ≤ length sorted.now }
    ensures place { result ≡ place_for name.now sorted.now }
{
    for (i, each) in sorted.iter().enumerate() {
        if name.as_slice().cmp(each.name.as_slice()) != Ordering::Greater {
            return i;
        }
    }
    sorted.len()
}

#[tactic(auto, using(crate::proofs::OrderTurns::put_turns))]
fn put(mut sorted: Vec<Field>, field: Field) -> Result<Vec<Field>, AllocError>
    ensures { IfOk result (λ r. fields r.items ≡ put_field field.name field.ty (fields sorted.items)) }
{
    let at = place_for(sorted.as_slice(), &field.name);
    sorted.insert(at, field)?;
    Ok(sorted)
}

/// The fields in the byte order of their names. The work is quadratic in their number, of which a class has at most 64.
#[tactic(auto, using(crate::proofs::OrderTurns::order_turns))]
fn in_order(alloc: Global, mut declared: Items<Field>) -> Result<Items<Field>, AllocError>
    ensures { IfOk result (λ r. fields r ≡ in_order (fields declared)) }
{
    let mut sorted = Vec::new(alloc);
    while let Some(field) = declared.pop() {
        sorted = put(sorted, field)?;
    }
    Ok(Items::from_vec(sorted))
}

/// The type of a class, where the types of its fields' classes are known.
pub fn class_made(
    alloc: Global,
    names: &NamePlaces,
    own: &[Option<Shared<Ty>>],
    class: &ClassDef,
) -> Result<Option<Shared<Ty>>, AllocError>
    ensures { IfOk result (λ r. r ≡ class_by (look names.now own.now None) class.now) }
{
    let Some(declared) = fields_made(alloc, names, own, class.fields.as_slice())? else {
        return Ok(None);
    };
    let sorted = in_order(alloc, declared)?;
    whole(alloc, TyKind::Obj(sorted))
}

/// The type of an annotation that need not stand: `Dyn` where there is none.
pub fn type_any(
    alloc: Global,
    names: &NamePlaces,
    own: &[Option<Shared<Ty>>],
    ann: &Option<Ann>,
) -> Result<Option<Shared<Ty>>, AllocError>
    ensures { IfOk result (λ r. r ≡ any_by (look names.now own.now None) ann.now) }
{
    match ann {
        Some(ann) => type_made(alloc, names, own, ann),
        None => whole(alloc, TyKind::Dyn),
    }
}

/// The types of parameters.
#[tactic(auto, using(crate::proofs::MadeTurns::params_turns))]
fn params_made(
    alloc: Global,
    names: &NamePlaces,
    own: &[Option<Shared<Ty>>],
    params: &[Param],
) -> Result<Option<Items<Shared<Ty>>>, AllocError>
    ensures { IfOk result (λ r. option_map tys r ≡ params_by (look names.now own.now None) params.now) }
{
    let mut made = Items::new(alloc);
    for param in params {
        let Some(ty) = type_any(alloc, names, own, &param.ann)? else {
            return Ok(None);
        };
        made.push(ty)?;
    }
    Ok(Some(made))
}

/// The declared type of a function.
pub fn function_made(
    alloc: Global,
    names: &NamePlaces,
    own: &[Option<Shared<Ty>>],
    function: &FuncDef,
) -> Result<Option<Shared<Ty>>, AllocError>
    ensures { IfOk result (λ r. r ≡ function_by (look names.now own.now None) function.now) }
{
    let Some(params) = params_made(alloc, names, own, function.params.as_slice())? else {
        return Ok(None);
    };
    let Some(out) = type_any(alloc, names, own, &function.result)? else {
        return Ok(None);
    };
    whole(alloc, TyKind::Fun(params, out))
}
