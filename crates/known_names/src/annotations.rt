ghost use Rattle.std.specs.Prelude.{◌≡◌, [], IfOk};
ghost use Rattle.mono_syntax.specs.AnnView.{anns};
ghost use Rattle.mono_tree.specs.TypedPrograms.{type_of_name};
ghost use Rattle.known_names.specs.computed.Annotations.{written, written_all, known_field, known_fields};

use crate::named::NamedTypes;
use crate::types::{new_type, type_or_dyn};
use mono_list::Shared;
use mono_syntax::{Ann, AnnForm, Field, FieldDef, Name, Ty, TyKind};
use sqlite_items::Items;
use std::alloc::{AllocError, Global};

fn class_type(classes: &NamedTypes, name: &Name) -> Result<Option<Shared<Ty>>, AllocError>
    ensures { IfOk result (λ found. found ≡ type_of_name classes.now name.now) }
{
    match classes.get(name) {
        Some(ty) => Ok(Some(ty.share()?)),
        None => Ok(None),
    }
}

/// The type that an annotation writes, where the classes have these types. There is none where it names no class.
#[cycle(written)]
pub fn written(
    alloc: Global,
    classes: &NamedTypes,
    ann: &Ann,
) -> Result<Option<Shared<Ty>>, AllocError>
    ensures { IfOk result (λ found. found ≡ written classes.now ann.now) }
{
    match &ann.what {
        AnnForm::Dyn => Ok(Some(new_type(alloc, TyKind::Dyn)?)),
        AnnForm::Int => Ok(Some(new_type(alloc, TyKind::Int)?)),
        AnnForm::Bool => Ok(Some(new_type(alloc, TyKind::Bool)?)),
        AnnForm::Str => Ok(Some(new_type(alloc, TyKind::Str)?)),
        AnnForm::Nil => Ok(Some(new_type(alloc, TyKind::Nil)?)),
        AnnForm::Class(word) => class_type(classes, &word.text),
        AnnForm::Fun(params, out) => {
            let Some(params) = written_all(alloc, classes, params.as_slice())? else {
                return Ok(None);
            };
            let Some(out) = written(alloc, classes, out.get())? else {
                return Ok(None);
            };
            Ok(Some(new_type(alloc, TyKind::Fun(params, out))?))
        }
    }
}

#[cycle(written)]
#[tactic(auto, using(mono_syntax::proofs::Parts::parts))]
fn written_all(
    alloc: Global,
    classes: &NamedTypes,
    annotations: &[Ann],
) -> Result<Option<Items<Shared<Ty>>>, AllocError>
    ensures { IfOk result (λ found. found ≡ written_all classes.now [] (anns annotations.now)) }
{
    let mut types = Items::new(alloc);
    for ann in annotations {
        let Some(ty) = written(alloc, classes, ann)? else {
            return Ok(None);
        };
        types.push(ty)?;
    }
    Ok(Some(types))
}

fn known_field(alloc: Global, classes: &NamedTypes, field: &FieldDef) -> Result<Field, AllocError>
    ensures { IfOk result (λ known. known ≡ known_field classes.now field.now) }
{
    let found = written(alloc, classes, &field.ann)?;
    let ty = type_or_dyn(alloc, found)?;
    let name = field.name.text.share()?;
    Ok(Field { name, ty })
}

/// The fields of a class with their types, in declared order.
pub fn known_fields(
    alloc: Global,
    classes: &NamedTypes,
    fields: &[FieldDef],
) -> Result<Items<Field>, AllocError>
    ensures { IfOk result (λ known. known ≡ known_fields classes.now fields.now) }
{
    let mut known = Items::new(alloc);
    for field in fields {
        known.push(known_field(alloc, classes, field)?)?;
    }
    Ok(known)
}
