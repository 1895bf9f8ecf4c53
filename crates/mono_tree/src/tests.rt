use crate::{
    Field, Name, Ty, TyKind, copy_type, is_static, meet, precise, same_type, type_bytes, type_text,
};
use mono_list::Shared;
use sqlite_items::Items;
use std::alloc::{AllocError, Global};
use std::mem;
use std::test::Fail;

/// The type that these steps make: `D i b s n` are the base types, `p` makes the last type a parameter, `f` makes a
/// function of the parameters with the last type as its result, `x y z` make the last type a field of that name, and
/// `o` makes an object of the fields.
fn build(alloc: Global, steps: &[u8]) -> Result<Ty, AllocError> {
    let mut kind = TyKind::Dyn;
    let mut params = Items::new(alloc);
    let mut members = Items::new(alloc);
    for step in steps {
        match *step {
            b'i' => kind = TyKind::Int,
            b'b' => kind = TyKind::Bool,
            b's' => kind = TyKind::Str,
            b'n' => kind = TyKind::Nil,
            b'p' => {
                let last = mem::replace(&mut kind, TyKind::Dyn);
                params.push(Shared::new(alloc, Ty { kind: last })?)?;
            }
            b'f' => {
                let last = mem::replace(&mut kind, TyKind::Dyn);
                let taken = mem::replace(&mut params, Items::new(alloc));
                kind = TyKind::Fun(taken, Shared::new(alloc, Ty { kind: last })?);
            }
            b'x' | b'y' | b'z' => {
                let last = mem::replace(&mut kind, TyKind::Dyn);
                let ty = Shared::new(alloc, Ty { kind: last })?;
                let name = Name::new(alloc, &[*step])?;
                members.push(Field { name, ty })?;
            }
            b'o' => kind = TyKind::Obj(mem::replace(&mut members, Items::new(alloc))),
            _ => kind = TyKind::Dyn,
        }
    }
    Ok(Ty { kind })
}

#[test]
fn meets(rt: HostRuntime) -> Result<(), Fail> {
    let alloc = rt.alloc();
    let rows = [
        ("ipDf", "Dpsf", "Callable[[int], str]"),
        ("i", "s", "apart"),
        ("D", "ipDf", "Callable[[int], Dyn]"),
        ("ipDf", "D", "Callable[[int], Dyn]"),
        ("i", "i", "int"),
        ("b", "i", "apart"),
        ("n", "n", "None"),
        ("Df", "bf", "Callable[[], bool]"),
        ("ipDf", "Df", "apart"),
        ("ipDpnf", "Dpbpnf", "Callable[[int, bool], None]"),
        ("ipDpnf", "Dpbpif", "apart"),
        ("ixDyo", "Dxsyo", "{x: int, y: str}"),
        ("ixDyo", "ixDzo", "apart"),
        ("ixDyo", "ixo", "apart"),
        ("o", "o", "{}"),
        ("ixopDf", "Dxopbf", "Callable[[{x: int}], bool]"),
    ];
    for (left, right, wanted) in rows {
        let a = build(alloc, left.as_bytes())?;
        let b = build(alloc, right.as_bytes())?;
        let text = match meet(alloc, &a, &b)? {
            Some(m) => type_bytes(alloc, &m)?,
            None => Vec::from_slice(alloc, b"apart")?,
        };
        assert!(rt; text.as_slice() == wanted.as_bytes());
    }
    Ok(())
}

#[test]
fn tests_of_types(rt: HostRuntime) -> Result<(), Fail> {
    let alloc = rt.alloc();
    let a = build(alloc, b"ipsf")?;
    let b = build(alloc, b"ipDf")?;
    assert!(rt; precise(&a, &b) && !precise(&b, &a));
    assert!(rt; is_static(&a) && !is_static(&b));
    let copy = copy_type(alloc, &a)?;
    assert!(rt; same_type(&copy, &a) && !same_type(&copy, &b));
    let text = type_text(alloc, &Ty { kind: TyKind::Nil })?;
    assert!(rt; text.as_str() == "None");
    Ok(())
}
