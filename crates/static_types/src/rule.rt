use mono_list::Shared;
use mono_syntax::Ty;
use sqlite_items::Items;

/// The types at which a construct uses its parts, in source order, and the type of the whole. A part of which any type will do
/// is used at `Dyn`.
#[derive(Drop)]
pub struct Rule {
    pub asks: Items<Shared<Ty>>,
    pub gives: Shared<Ty>,
}
