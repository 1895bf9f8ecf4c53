ghost use Rattle.std.specs.Prelude.{◌≡◌, ◌≤◌, length};
ghost use Rattle.mono_syntax.specs.AnnView.{anns};
ghost use Rattle.class_types.specs.computed.Made.{look};
ghost use Rattle.mono_tree.specs.computed.CountedSizes.{nothing};
ghost use Rattle.class_types.specs.computed.Measured.{size_by, sizes_onto, fields_onto, class_size_by, any_size_by, params_onto, function_size_by};

use mono_syntax::{Ann, AnnForm, ClassDef, FieldDef, FuncDef, Name, Param};
use mono_tree::Size;
use name_places::NamePlaces;

/// The size of a class's type by its name; a name of no class counts as `stray`.
fn class_size(
    names: &NamePlaces,
    own: &[Option<Size>],
    stray: Option<Size>,
    name: &Name,
) -> Option<Size>
    ensures { result ≡ look names.now own.now stray name.now }
{
    match names.place(name) {
        Some(at) => match own.get(at) {
            Some(size) => *size,
            None => None,
        },
        None => stray,
    }
}

/// The size of the type that an annotation writes.
#[cycle(measure)]
pub fn size_of(
    names: &NamePlaces,
    own: &[Option<Size>],
    stray: Option<Size>,
    ann: &Ann,
) -> Option<Size>
    ensures { result ≡ size_by (look names.now own.now stray) ann.now }
{
    match &ann.what {
        AnnForm::Class(word) => class_size(names, own, stray, &word.text),
        AnnForm::Fun(params, out) => {
            let parts = sizes_of(names, own, stray, params.as_slice())?;
            let out = size_of(names, own, stray, out.get())?;
            Some(parts.joined(out).grown())
        }
        _ => Some(Size::LEAF),
    }
}

#[cycle(measure)]
#[tactic(auto, using(mono_syntax::proofs::Parts::parts))]
fn sizes_of(
    names: &NamePlaces,
    own: &[Option<Size>],
    stray: Option<Size>,
    list: &[Ann],
) -> Option<Size>
    ensures { result ≡ sizes_onto (look names.now own.now stray) nothing (anns list.now) }
{
    let mut parts = Size::NOTHING;
    for ann in list {
        let size = size_of(names, own, stray, ann)?;
        parts = parts.joined(size);
    }
    Some(parts)
}

/// The size of a class's type.
pub fn size_of_class(
    names: &NamePlaces,
    own: &[Option<Size>],
    stray: Option<Size>,
    class: &ClassDef,
) -> Option<Size>
    ensures { result ≡ class_size_by (look names.now own.now stray) class.now }
{
    let parts = size_of_fields(names, own, stray, class.fields.as_slice())?;
    Some(parts.grown())
}

fn size_of_fields(
    names: &NamePlaces,
    own: &[Option<Size>],
    stray: Option<Size>,
    list: &[FieldDef],
) -> Option<Size>
    ensures { result ≡ fields_onto (look names.now own.now stray) nothing list.now }
{
    let mut parts = Size::NOTHING;
    for field in list {
        let size = size_of(names, own, stray, &field.ann)?;
        parts = parts.joined(size);
    }
    Some(parts)
}

fn size_of_any(
    names: &NamePlaces,
    own: &[Option<Size>],
    stray: Option<Size>,
    ann: &Option<Ann>,
) -> Option<Size>
    ensures { result ≡ any_size_by (look names.now own.now stray) ann.now }
{
    match ann {
        Some(ann) => size_of(names, own, stray, ann),
        None => Some(Size::LEAF),
    }
}

fn size_of_params(
    names: &NamePlaces,
    own: &[Option<Size>],
    stray: Option<Size>,
    params: &[Param],
) -> Option<Size>
    ensures { result ≡ params_onto (look names.now own.now stray) nothing params.now }
{
    let mut parts = Size::NOTHING;
    for param in params {
        let size = size_of_any(names, own, stray, &param.ann)?;
        parts = parts.joined(size);
    }
    Some(parts)
}

/// The size of a function's declared type.
pub fn size_of_function(
    names: &NamePlaces,
    own: &[Option<Size>],
    stray: Option<Size>,
    function: &FuncDef,
) -> Option<Size>
    ensures { result ≡ function_size_by (look names.now own.now stray) function.now }
{
    let parts = size_of_params(names, own, stray, function.params.as_slice())?;
    let out = size_of_any(names, own, stray, &function.result)?;
    Some(parts.joined(out).grown())
}
