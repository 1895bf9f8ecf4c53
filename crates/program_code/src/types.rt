ghost use Rattle.std.specs.Prelude.{IfOk, List, Contains};
ghost use Rattle.mono_syntax.specs.Ty.{Ty};
ghost use Rattle.mono_tree.specs.TypeNumbers.{Names};
ghost use Rattle.node_code.specs.Places.{Each};

use mono_list::Shared;
use mono_syntax::{Ty, TypeNo};
use sqlite_items::Items;
use std::alloc::{AllocError, Global};
use type_numbers::TypeTable;

/// The number of a type that stands in the table.
pub(crate) fn type_no(table: &TypeTable, ty: &Shared<Ty>) -> TypeNo
    requires { Contains table.now.types ty.now }
    ensures { Names table.now.types result ty.now }
{
    match table.number_of(ty.get()) {
        Some(n) => n,
        None => unreachable!(),
    }
}

/// The numbers of types that stand in the table, in their order.
pub(crate) fn type_numbers(
    alloc: Global,
    table: &TypeTable,
    types: &[Shared<Ty>],
) -> Result<Items<TypeNo>, AllocError>
    requires { (t : Ty) → Contains types.now t → Contains table.now.types t }
    ensures { IfOk result (λ r. Each (Names table.now.types) r types.now) }
{
    let mut numbers = Items::new(alloc);
    for ty in types {
        numbers.push(type_no(table, ty))?;
    }
    Ok(numbers)
}
