ghost use Rattle.std.specs.Prelude.{◌≡◌, ◌<◌, ◌^◌, Some, IfSome, length, slice_get};
ghost use Rattle.type_shapes.specs.computed.ByNumber.{met_no};
ghost use Rattle.type_numbers.specs.Tables.{IsPlaceOf};
ghost use Rattle.type_numbers.specs.computed.ShapeParts.{result_last, parts_by, names_by, same_group, type_number};

use mono_syntax::{Name, TypeNo};
use sqlite_items::Items;
use type_shapes::{Head, Shape, met_no};

/// The number of the meet, by the rows of meets.
pub fn meet_in(rows: &[Items<Option<u16>>], a: TypeNo, b: TypeNo) -> Option<TypeNo>
    ensures { result ≡ type_number (met_no rows.now a.0 b.0) }
{
    let met = met_no(rows, a.0, b.0)?;
    Some(TypeNo(met))
}

/// The part at a place, of a function whose result comes first.
fn function_part(parts: &[u16], i: usize) -> Option<u16>
    ensures { result ≡ slice_get (result_last parts.now) i }
{
    let Some((out, params)) = parts.split_first() else {
        return None;
    };
    if i == params.len() {
        return Some(*out);
    }
    params.get(i).copied()
}

/// The part at a place.
pub fn part_in(shape: &Shape, i: u32) -> Option<TypeNo>
    ensures { result ≡ type_number (slice_get (parts_by shape.now.head shape.now.parts) i) }
{
    let parts = shape.parts.as_slice();
    let part = match shape.head {
        Head::Fun => function_part(parts, i as usize),
        _ => parts.get(i as usize).copied(),
    };
    Some(TypeNo(part?))
}

/// The names of the fields; none, where it isn't an object.
pub fn names_in(names: &[Items<Name>], head: Head) -> &[Name]
    ensures { result.now ≡ names_by names.now head }
{
    match head {
        Head::Obj(group) => match names.get(group) {
            Some(list) => list.as_slice(),
            None => &[],
        },
        _ => &[],
    }
}

/// The place of a name.
pub fn place_in(names: &[Name], name: &[u8]) -> Option<u32>
    requires { length names.now < 2 ^ 32 }
    ensures { IsPlaceOf names.now name.now result }
{
    for (i, known) in names.iter().enumerate() {
        if known.as_slice() == name {
            return Some(i as u32);
        }
    }
    None
}

/// Whether both are objects with the same names.
pub fn is_same_group(a: Head, b: Head) -> bool
    ensures { result ≡ same_group a b }
{
    match (a, b) {
        (Head::Obj(m), Head::Obj(n)) => m == n,
        _ => false,
    }
}
