ghost use Rattle.std.specs.Prelude.{◌≡◌, fold};
ghost use Rattle.type_shapes.specs.computed.ShapeEq.{head_eq, head_fed};

use sqlite_items::Items;
use std::hash::{Hash, Hasher};

/// What a type is but for its parts. The number of an object is that of its field names, in a list of such lists.
#[derive(Clone, Copy)]
pub enum Head {
    Dyn,
    Int,
    Bool,
    Str,
    Nil,
    Fun,
    Obj(usize),
}

/// A type by the numbers of its parts: a function's result comes first, and then its parameters.
#[derive(Drop)]
pub struct Shape {
    pub head: Head,
    pub parts: Items<u16>,
}

/// Whether two heads are the same.
pub fn same_head(a: Head, b: Head) -> bool
    ensures { result ≡ head_eq a b }
{
    match (a, b) {
        (Head::Dyn, Head::Dyn) => true,
        (Head::Int, Head::Int) => true,
        (Head::Bool, Head::Bool) => true,
        (Head::Str, Head::Str) => true,
        (Head::Nil, Head::Nil) => true,
        (Head::Fun, Head::Fun) => true,
        (Head::Obj(m), Head::Obj(n)) => m == n,
        _ => false,
    }
}

impl PartialEq for Shape {
    ghost use Rattle.type_shapes.specs.computed.ShapeEq.{shape_eq};
    ghost use Rattle.type_shapes.specs.ShapeEqLaws.{shape_eq-partial};

    ghost eq = { shape_eq };

    ghost laws = { shape_eq-partial };

    fn eq(&self, other: &Shape) -> bool {
        same_head(self.head, other.head) && self.parts.as_slice() == other.parts.as_slice()
    }
}

impl Eq for Shape {
    ghost use Rattle.type_shapes.specs.ShapeEqLaws.{shape_eq-laws};

    ghost laws = { shape_eq-laws };
}

impl Hash for Shape {
    ghost use Rattle.type_shapes.specs.computed.ShapeEq.{shape_fed};
    ghost use Rattle.type_shapes.specs.ShapeEqLaws.{shape_fed-alike};

    ghost hash_input = { shape_fed };

    ghost respects_eq = { shape_fed-alike };

    fn hash<H: Hasher>(&self, state: &mut H) {
        feed_head(self.head, state);
        self.parts.as_slice().hash(state);
    }
}

fn feed_head<H: Hasher>(head: Head, state: &mut H)
    ensures { state.new ≡ fold H.write state.old (head_fed head) }
{
    match head {
        Head::Dyn => state.write_u8(0),
        Head::Int => state.write_u8(1),
        Head::Bool => state.write_u8(2),
        Head::Str => state.write_u8(3),
        Head::Nil => state.write_u8(4),
        Head::Fun => state.write_u8(5),
        Head::Obj(group) => {
            state.write_u8(6);
            state.write_usize(group);
        }
    }
}
