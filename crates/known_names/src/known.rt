ghost use Rattle.std.specs.Prelude.{◌≡◌};
ghost use Rattle.std.specs.Option.{option_copied};
ghost use Rattle.mono_syntax.specs.TyView.{fields};
ghost use Rattle.static_types.specs.Members.{field_type};

use crate::known_classes::KnownClasses;
use crate::named::NamedTypes;
use mono_list::Shared;
use mono_syntax::{Field, Name, Ty};
use sqlite_items::Items;

/// A class with its fields in declared order, and its type.
#[derive(Drop)]
pub struct KnownClass {
    pub name: Name,
    pub fields: Items<Field>,
    pub ty: Shared<Ty>,
}

/// What is known of the names that stand for the same in a whole script: the types that its classes' names write, its classes in
/// source order, and its functions with their declared types, in source order.
#[derive(Drop)]
pub struct Known {
    pub annotations: NamedTypes,
    pub classes: KnownClasses,
    pub functions: NamedTypes,
}

/// What is known in one block beside that: its parameters and assigned names with their types, the names that it has started
/// so far with the types of what their threads give, and the declared result of its function, which the main block hasn't.
#[derive(Drop)]
pub struct Local {
    pub values: NamedTypes,
    pub threads: NamedTypes,
    pub result: Option<Shared<Ty>>,
}

/// What is known of all names of a script: of those that stand for the same everywhere, of those of each function's body at its
/// start, in source order, and of those of the main block at its start.
#[derive(Drop)]
pub struct KnownScript {
    pub names: Known,
    pub bodies: Items<Local>,
    pub main: Local,
}

/// The type of a field. The search is linear, in the fields of one class.
pub fn field_of<'a>(members: &'a [Field], name: &Name) -> Option<&'a Shared<Ty>>
    ensures { option_copied result ≡ field_type (fields members.now) name.now }
{
    for member in members {
        if member.name.as_slice() == name.as_slice() {
            return Some(&member.ty);
        }
    }
    None
}
