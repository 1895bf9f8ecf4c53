use mono_syntax::{Name, Site, TypeNo};
use node_code::Block;
use sqlite_items::Items;
use type_numbers::TypeTable;

/// A class: the names of its fields in the order in which an object takes them.
#[derive(Drop)]
pub struct ClassCode {
    pub params: Items<Name>,
}

/// A function: the slots of its parameters in their order, the number of its declared type, its block, and the Return site of its end
/// where one stands.
#[derive(Drop)]
pub struct FunctionCode {
    pub params: Items<u32>,
    pub ty: TypeNo,
    pub block: Block,
    pub falls: Option<u32>,
}

/// A script by numbers: its texts, each once, the table of its types, for each position of a type in the script's own list its number,
/// its sites, and its classes and functions in source order with their names, each by number from 0.
#[derive(Drop)]
pub struct Program {
    pub texts: Items<Name>,
    pub table: TypeTable,
    pub site_types: Items<TypeNo>,
    pub sites: Items<Site>,
    pub classes: Items<ClassCode>,
    pub class_names: Items<Name>,
    pub functions: Items<FunctionCode>,
    pub function_names: Items<Name>,
    pub main: Block,
}
