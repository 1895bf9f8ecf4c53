ghost use Rattle.std.specs.Prelude.{◌≡◌, [], IfOk, OnOk, length};
ghost use Rattle.type_list.specs.Placing.{IsPlaced};
ghost use Rattle.type_list.specs.computed.TypeList.{with_type};

use crate::key::TypeKey;
use indexmap::IndexSet;
use mono_list::Shared;
use mono_syntax::{Ty, TyAt};
use sqlite_items::Items;
use std::alloc::{AllocError, Global};
use std::marker::Model;

/// Types, each once, in the order in which they were met. Contracts see the list.
#[derive(Drop)]
pub struct TypeList {
    kept: IndexSet<TypeKey>,
}

impl Model for TypeList {
    ghost use Rattle.std.specs.Prelude.{List};
    ghost use Rattle.std.specs.Coded.{coded_list};
    ghost use Rattle.mono_syntax.specs.Ty.{Ty, ty_code};

    ghost Value = { List Ty };

    ghost coded = { coded_list ty_code };

    ghost view = { λ l. l.kept.keys };
}

/// A list of types, and the position of one of them.
#[derive(Drop)]
pub struct Placed {
    pub at: TyAt,
    pub types: TypeList,
}

impl TypeList {
    /// No types.
    pub fn new(alloc: Global) -> TypeList
        ensures { result ≡ [] }
    {
        let kept = IndexSet::new(alloc);
        TypeList { kept }
    }

    /// The list, for another owner.
    pub fn shared(&self, alloc: Global) -> Result<Items<Shared<Ty>>, AllocError>
        ensures { IfOk result (λ types. types ≡ self.now) }
    {
        types_of(alloc, self.kept.as_slice())
    }
}

fn types_of(alloc: Global, keys: &[TypeKey]) -> Result<Items<Shared<Ty>>, AllocError>
    ensures { IfOk result (λ types. types ≡ keys.now) }
{
    let mut types = Items::new(alloc);
    for key in keys {
        types.push(key.ty.share()?)?;
    }
    Ok(types)
}

/// A number of a type. There are never as many types as numbers: each came with a name, a class, a function or a site of a script of 2^20
/// bytes.
fn numbered(at: usize) -> Result<TyAt, AllocError>
    ensures { IfOk result (λ r. r.0 ≡ at) }
{
    match u32::try_from(at) {
        Ok(at) => Ok(TyAt(at)),
        Err(_) => Err(AllocError),
    }
}

fn place_of_type(types: TypeList, ty: &Shared<Ty>) -> Result<Placed, AllocError>
    ensures { IfOk result (λ p. p ≡ with_type types ty.now) }
{
    let TypeList { mut kept } = types;
    let ty = ty.share()?;
    let (at, _) = kept.insert_full(TypeKey { ty })?;
    let at = numbered(at)?;
    Ok(Placed {
        at,
        types: TypeList { kept },
    })
}

/// The position of a type in the list, which gets it at its end where it isn't there yet.
pub fn with_type(types: TypeList, ty: &Shared<Ty>) -> Result<Placed, AllocError>
    ensures placed { IfOk result (IsPlaced types ty.now) }

    // It is the value that the definition of this name computes.
    ensures computed { IfOk result (λ p. p ≡ with_type types ty.now) }
{
    place_of_type(types, ty)
}
