use crate::leaf::TyAt;
use crate::name::Name;
use crate::tree::{Script, Ty};
use mono_list::Shared;
use sqlite_items::Items;

/// A name of a block with the position of its type.
#[derive(Drop)]
pub struct TypedName {
    pub name: Name,
    pub ty: TyAt,
}

/// The names of a block: the parameters and assigned names with their types, and the started names.
#[derive(Drop)]
pub struct BlockNames {
    pub values: Items<TypedName>,
    pub threads: Items<Name>,
}

/// A script whose names are all known. Classes, functions and blocks stand in source order, the main block last.
#[derive(Drop)]
pub struct Scoped {
    pub script: Shared<Script>,
    pub types: Items<Shared<Ty>>,
    pub classes: Items<TyAt>,
    pub functions: Items<TyAt>,
    pub blocks: Items<BlockNames>,
}

/// A script with the static type of each expression, in source order, the parts of an expression before it.
#[derive(Drop)]
pub struct Typed {
    pub scoped: Shared<Scoped>,
    pub types: Items<Shared<Ty>>,
    pub exprs: Items<TyAt>,
}
