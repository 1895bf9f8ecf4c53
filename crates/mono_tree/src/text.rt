ghost use Rattle.std.specs.Prelude.{◌≡◌, ◌++◌, IfOk, OnOk, codes, string_bytes};
ghost use Rattle.mono_syntax.specs.TyView.{tys, fields};
ghost use Rattle.mono_tree.specs.TypeText.{text_of, texts_of, field_texts, joined, joined_on, HasTextNames};

use mono_list::Shared;
use mono_syntax::{Field, Ty, TyKind};
use std::alloc::{AllocError, Global};

/// The text of a type, as `Callable[[int], Dyn]`.
pub fn type_text(alloc: Global, a: &Ty) -> Result<String, AllocError>
    requires { HasTextNames a.now }
    ensures { IfOk result (λ text. string_bytes text ≡ text_of a.now) }
{
    let bytes = type_bytes(alloc, a)?;
    Ok(String::from_utf8(bytes).unwrap())
}

/// The bytes of that text, also where a name is no text.
pub fn type_bytes(alloc: Global, a: &Ty) -> Result<Vec<u8>, AllocError>
    ensures { IfOk result (λ text. text.items ≡ text_of a.now) }
{
    let mut text = Vec::new(alloc);
    put_type(&mut text, a)?;
    Ok(text)
}

#[cycle(texts)]
fn put_type(text: &mut Vec<u8>, a: &Ty) -> Result<(), AllocError>
    ensures { OnOk result (text.new.items ≡ text.old.items ++ text_of a.now) }
{
    match &a.kind {
        TyKind::Dyn => text.extend_from_slice(b"Dyn"),
        TyKind::Int => text.extend_from_slice(b"int"),
        TyKind::Bool => text.extend_from_slice(b"bool"),
        TyKind::Str => text.extend_from_slice(b"str"),
        TyKind::Nil => text.extend_from_slice(b"None"),
        TyKind::Fun(params, out) => {
            text.extend_from_slice(b"Callable[[")?;
            put_types(text, params.as_slice())?;
            text.extend_from_slice(b"], ")?;
            put_type(text, out.get())?;
            text.extend_from_slice(b"]")
        }
        TyKind::Obj(members) => {
            text.extend_from_slice(b"{")?;
            put_fields(text, members.as_slice())?;
            text.extend_from_slice(b"}")
        }
    }
}

#[cycle(texts)]
#[tactic(auto, using(crate::proofs::TextTurns::turns))]
fn put_types(text: &mut Vec<u8>, types: &[Shared<Ty>]) -> Result<(), AllocError>
    ensures { OnOk result (text.new.items ≡ text.old.items ++ joined (texts_of (tys types.now))) }
{
    let Some((first, rest)) = types.split_first() else {
        return Ok(());
    };
    put_type(text, first.get())?;
    put_more_types(text, rest)
}

#[cycle(texts)]
#[tactic(auto, using(crate::proofs::TextTurns::turns))]
fn put_more_types(text: &mut Vec<u8>, types: &[Shared<Ty>]) -> Result<(), AllocError>
    ensures { OnOk result (text.new.items ≡ text.old.items ++ joined_on (texts_of (tys types.now))) }
{
    for t in types {
        put_separator(text)?;
        put_type(text, t.get())?;
    }
    Ok(())
}

#[cycle(texts)]
#[tactic(auto, using(crate::proofs::TextTurns::turns))]
fn put_fields(text: &mut Vec<u8>, members: &[Field]) -> Result<(), AllocError>
    ensures { OnOk result (text.new.items ≡ text.old.items ++ joined (field_texts (fields members.now))) }
{
    let Some((first, rest)) = members.split_first() else {
        return Ok(());
    };
    put_field(text, first)?;
    put_more_fields(text, rest)
}

#[cycle(texts)]
#[tactic(auto, using(crate::proofs::TextTurns::turns))]
fn put_more_fields(text: &mut Vec<u8>, members: &[Field]) -> Result<(), AllocError>
    ensures { OnOk result (text.new.items ≡ text.old.items ++ joined_on (field_texts (fields members.now))) }
{
    for member in members {
        put_separator(text)?;
        put_field(text, member)?;
    }
    Ok(())
}

#[cycle(texts)]
fn put_field(text: &mut Vec<u8>, member: &Field) -> Result<(), AllocError>
    ensures { OnOk result (text.new.items ≡ text.old.items ++ (member.now.name ++ codes ": " ++ text_of member.now.ty)) }
{
    text.extend_from_slice(member.name.as_slice())?;
    text.extend_from_slice(b": ")?;
    put_type(text, member.ty.get())
}

/// Puts what stands between two pieces.
fn put_separator(text: &mut Vec<u8>) -> Result<(), AllocError>
    ensures { OnOk result (text.new.items ≡ text.old.items ++ codes ", ") }
{
    text.extend_from_slice(b", ")
}
