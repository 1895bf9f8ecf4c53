ghost use Rattle.std.specs.Prelude.{◌≡◌, IfOk};
ghost use Rattle.mono_tree.specs.TypeNumbers.{IsInRange};

use crate::TypeTable;
use meet_closure::close;
use mono_list::Shared;
use mono_syntax::{ClassNo, Field, Name, Ty, TyKind, TypeNo};
use mono_tree::{Meets, type_bytes};
use sqlite_items::Items;
use std::alloc::{AllocError, Global};
use std::mem;
use std::test::Fail;

/// The type that these steps make: `D i b s n` are the base types, `p` makes the last type a parameter, `f` makes a
/// function of the parameters with the last type as its result, `x y` make the last type a field of that name, and `o`
/// makes an object of the fields.
fn build(alloc: Global, steps: &str) -> Result<Ty, AllocError> {
    let mut kind = TyKind::Dyn;
    let mut params = Items::new(alloc);
    let mut members = Items::new(alloc);
    for step in steps.as_bytes() {
        match *step {
            b'i' => kind = TyKind::Int,
            b'b' => kind = TyKind::Bool,
            b's' => kind = TyKind::Str,
            b'n' => kind = TyKind::Nil,
            b'p' => {
                let last = mem::replace(&mut kind, TyKind::Dyn);
                params.push(Shared::new(alloc, Ty { kind: last })?)?;
            }
            b'f' => {
                let last = mem::replace(&mut kind, TyKind::Dyn);
                let taken = mem::replace(&mut params, Items::new(alloc));
                kind = TyKind::Fun(taken, Shared::new(alloc, Ty { kind: last })?);
            }
            b'x' | b'y' => {
                let last = mem::replace(&mut kind, TyKind::Dyn);
                let ty = Shared::new(alloc, Ty { kind: last })?;
                let name = Name::new(alloc, &[*step])?;
                members.push(Field { name, ty })?;
            }
            b'o' => kind = TyKind::Obj(mem::replace(&mut members, Items::new(alloc))),
            _ => kind = TyKind::Dyn,
        }
    }
    Ok(Ty { kind })
}

/// The table of the closed list of the classes' types. A refusal counts as an error.
fn table_of(alloc: Global, classes: &[Ty]) -> Result<TypeTable, AllocError>
    ensures { IfOk result (λ table. table.classes ≡ classes.now) }
{
    match close(alloc, classes) {
        Ok(closed) => TypeTable::new(alloc, closed, classes),
        Err(_) => Err(AllocError),
    }
}

/// The number of the type that the steps make. That there is none counts as an error.
fn number(alloc: Global, table: &TypeTable, steps: &str) -> Result<TypeNo, AllocError>
    ensures { IfOk result (IsInRange table.now.types) }
{
    match table.number_of(&build(alloc, steps)?) {
        Some(n) => Ok(n),
        None => Err(AllocError),
    }
}

/// The types of the classes: numbers 5 to 9 of their closed list. Their meets are 10 and 11.
fn classes(alloc: Global) -> Result<[Ty; 5], AllocError> {
    Ok([
        build(alloc, "ixDyo")?,
        build(alloc, "Dxsyo")?,
        build(alloc, "ipixDyopDf")?,
        build(alloc, "DpDxsyopbf")?,
        build(alloc, "ixo")?,
    ])
}

/// What a row expects where there is no number.
const NONE: u32 = 99;

fn number_or_none(n: Option<TypeNo>) -> u32 {
    match n {
        Some(n) => n.0 as u32,
        None => NONE,
    }
}

/// Each type has its number, its text, and is static or not.
#[test]
fn types(rt: HostRuntime) -> Result<(), Fail> {
    let alloc = rt.alloc();
    let table = table_of(alloc, &classes(alloc)?)?;
    let rows = [
        ("D", 0, "Dyn", false),
        ("i", 1, "int", true),
        ("n", 4, "None", true),
        ("ixDyo", 5, "{x: int, y: Dyn}", false),
        (
            "DpDxsyopbf",
            8,
            "Callable[[Dyn, {x: Dyn, y: str}], bool]",
            false,
        ),
        ("ixo", 9, "{x: int}", true),
        ("ixsyo", 10, "{x: int, y: str}", true),
        (
            "ipixsyopbf",
            11,
            "Callable[[int, {x: int, y: str}], bool]",
            true,
        ),
    ];
    for (steps, wanted, text, is_static) in rows {
        let n = number(alloc, &table, steps)?;
        assert_eq!(rt; n.0, wanted);
        let bytes = type_bytes(alloc, table.ty(n))?;
        assert!(rt; bytes.as_slice() == text.as_bytes());
        assert_eq!(rt; table.is_static_no(n), is_static);
    }
    assert!(rt; table.number_of(&build(alloc, "iyo")?).is_none());
    Ok(())
}

/// Two types, the number of their meet, and whether the first is at least as precise.
#[test]
fn meets(rt: HostRuntime) -> Result<(), Fail> {
    let alloc = rt.alloc();
    let table = table_of(alloc, &classes(alloc)?)?;
    let rows = [
        ("ixDyo", "Dxsyo", 10, false),
        ("ipixDyopDf", "DpDxsyopbf", 11, false),
        ("DpDxsyopbf", "ipixDyopDf", 11, false),
        ("i", "s", NONE, false),
        ("ixo", "ixDyo", NONE, false),
        ("D", "ixo", 9, false),
        ("ixo", "D", 9, true),
        ("ixsyo", "ixDyo", 10, true),
        ("ixDyo", "ixsyo", 10, false),
        ("ipixsyopbf", "DpDxsyopbf", 11, true),
        ("b", "b", 2, true),
    ];
    for (left, right, met, is_precise) in rows {
        let a = number(alloc, &table, left)?;
        let b = number(alloc, &table, right)?;
        assert_eq!(rt; number_or_none(table.meet_no(a, b)), met);
        assert_eq!(rt; table.precise_no(a, b), is_precise);
    }
    Ok(())
}

/// The numbers of parts: those of a function's parameters, and then its result's; those of an object's fields.
#[test]
fn parts(rt: HostRuntime) -> Result<(), Fail> {
    let alloc = rt.alloc();
    let table = table_of(alloc, &classes(alloc)?)?;
    let rows = [
        ("ipixDyopDf", [1, 5, 0, NONE]),
        ("ipixsyopbf", [1, 10, 2, NONE]),
        ("Dxsyo", [0, 3, NONE, NONE]),
        ("ixo", [1, NONE, NONE, NONE]),
        ("i", [NONE, NONE, NONE, NONE]),
    ];
    for (steps, wanted) in rows {
        let n = number(alloc, &table, steps)?;
        for (i, part) in wanted.iter().enumerate() {
            assert_eq!(rt; number_or_none(table.part(n, i as u32)), *part);
        }
    }
    Ok(())
}

fn place_or_none(place: Option<u32>) -> u32 {
    match place {
        Some(place) => place,
        None => NONE,
    }
}

/// For each class: the number of its type, the places of two fields, and the types that have its names.
#[test]
fn looks_of_classes(rt: HostRuntime) -> Result<(), Fail> {
    let alloc = rt.alloc();
    let table = table_of(alloc, &classes(alloc)?)?;
    let both = number(alloc, &table, "ixsyo")?;
    let rows = [
        (5, 0, 1, true),
        (6, 0, 1, true),
        (7, NONE, NONE, false),
        (8, NONE, NONE, false),
        (9, 0, NONE, false),
    ];
    for (c, (wanted, x, y, is_alike)) in rows.iter().enumerate() {
        let class = ClassNo(c as u16);
        assert_eq!(rt; table.class_type(class).0, *wanted);
        assert_eq!(rt; place_or_none(table.field_at(class, "x")), *x);
        assert_eq!(rt; place_or_none(table.field_at(class, "y")), *y);
        assert_eq!(rt; table.same_names(class, both), *is_alike);
    }
    Ok(())
}
