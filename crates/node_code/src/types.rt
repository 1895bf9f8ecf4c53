ghost use Rattle.std.specs.Prelude.{Contains};
ghost use Rattle.mono_tree.specs.TypeNumbers.{Names};

use mono_list::Shared;
use mono_syntax::{Ty, TypeNo};
use type_numbers::TypeTable;

/// The number of a type of the table. One that the table hasn't is counted as far behind all of them.
pub(crate) fn type_at(table: &TypeTable, ty: &Shared<Ty>) -> TypeNo
    ensures { Contains table.now.types ty.now → Names table.now.types result ty.now }
{
    match table.number_of(ty.get()) {
        Some(n) => n,
        None => TypeNo(u16::MAX),
    }
}
