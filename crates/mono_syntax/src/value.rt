use crate::name::Name;
use crate::tree::Ty;
use mono_list::Shared;
use sqlite_items::Items;

/// The number of a type in a table of types. Below 4,095.
#[derive(Clone, Copy, Debug, PartialEq, Eq)]
pub struct TypeNo(pub u16);

/// The number of a class in source order, from 0. Below 1,023.
#[derive(Clone, Copy, Debug, PartialEq, Eq)]
pub struct ClassNo(pub u16);

/// The number of a function in source order, from 0. Below 4,095.
#[derive(Clone, Copy, Debug, PartialEq, Eq)]
pub struct FuncNo(pub u16);

/// A function with its merged type: the meet of its declared type and of all types that it was cast to.
#[derive(Clone, Copy, Debug, PartialEq, Eq)]
pub struct FnValue {
    pub func: FuncNo,
    pub merged: TypeNo,
}

/// A value by numbers, as a word keeps it. An integer is from -2^47 to 2^47-1.
#[derive(Clone, Copy, Debug, PartialEq, Eq)]
pub enum Value {
    Int(i64),
    Bool(bool),
    Nil,
    Text(u32),
    Obj { class: ClassNo, base: u32 },
    Fun(FnValue),
}

/// A value by names and types: an integer from -2^47 to 2^47-1, a bool, None, a text, an object by its class's number
/// and its address, or a function by its number with its merged type.
#[derive(Drop)]
pub enum Val {
    Int(i64),
    Bool(bool),
    Nil,
    Text(Name),
    Obj { class: u32, base: u32 },
    Fun { func: u32, merged: Shared<Ty> },
}

/// The printed lines, each with its values.
pub type Lines = Items<Items<Val>>;
