ghost use Rattle.std.specs.Prelude.{◌≡◌, ◌+◌, IsTrue, IfOk, length};
ghost use Rattle.step_expr.specs.Fits.{IsOfTable};
ghost use Rattle.strengthen.specs.Demands.{IsCellWord};

use crate::{Cells, Demand, Obligation, Verdict, next_demand, resume_demand};
use field_word::unpack;
use meet_closure::close;
use mono_list::Shared;
use mono_syntax::{ClassNo, Field, Name, Ty, TyKind, TypeNo, Value};
use sqlite_items::Items;
use std::alloc::{AllocError, Global};
use std::test::Fail;
use type_numbers::TypeTable;

/// The type of an object with one field.
fn object_type(alloc: Global, kind: TyKind) -> Result<Ty, AllocError> {
    let ty = Shared::new(alloc, Ty { kind })?;
    let name = Name::new(alloc, b"x")?;
    let mut members = Items::new(alloc);
    members.push(Field { name, ty })?;
    Ok(Ty {
        kind: TyKind::Obj(members),
    })
}

/// The type of a function of one parameter.
fn function_type(alloc: Global, param: TyKind, out: TyKind) -> Result<Ty, AllocError> {
    let param = Shared::new(alloc, Ty { kind: param })?;
    let out = Shared::new(alloc, Ty { kind: out })?;
    let mut params = Items::new(alloc);
    params.push(param)?;
    Ok(Ty {
        kind: TyKind::Fun(params, out),
    })
}

const CLASSES: u16 = 4;

/// The types 5 and 6 of objects, and 7 and 8 of functions, whose meet is 9. The types 0 to 4 are `Dyn`, `int`, `bool`, `str`, `None`.
fn classes(alloc: Global) -> Result<[Ty; 4], AllocError> {
    Ok([
        object_type(alloc, TyKind::Dyn)?,
        object_type(alloc, TyKind::Int)?,
        function_type(alloc, TyKind::Int, TyKind::Dyn)?,
        function_type(alloc, TyKind::Dyn, TyKind::Bool)?,
    ])
}

/// The table of the closed list of the classes' types. A refusal counts as an error.
fn table_of(alloc: Global, classes: &[Ty]) -> Result<TypeTable, AllocError>
    ensures { IfOk result (λ table. table.classes ≡ classes.now) }
{
    match close(alloc, classes) {
        Ok(closed) => TypeTable::new(alloc, closed, classes),
        Err(_) => Err(AllocError),
    }
}

/// Whether the numbers in a value are in the table's ranges.
fn is_of_table(v: Value, table: &TypeTable) -> bool
    requires { length table.now.classes ≡ CLASSES }
    ensures { IsTrue result → IsOfTable table.now v }
{
    match v {
        Value::Obj { class, base: _ } => class.0 < CLASSES,
        Value::Fun(f) => (f.merged.0 as usize) < table.count(),
        _ => true,
    }
}

fn is_cell_word(word: u64, table: &TypeTable) -> bool
    requires { length table.now.classes ≡ CLASSES }
    ensures { IsTrue result → IsCellWord table.now word }
{
    match unpack(word) {
        Some((n, v)) => (n.0 as usize) < table.count() && is_of_table(v, table),
        None => false,
    }
}

/// The obligation of an object's second field.
fn obligation(to: u16, ready: u64) -> Obligation
    ensures cell { result.object + result.field ≡ 31 }
    ensures to { result.to.0 ≡ to }
{
    Obligation {
        object: 30,
        class: ClassNo(1),
        field: 1,
        to: TypeNo(to),
        ready,
    }
}

/// The words of the same object at the types 0, 5 and 6.
const AT_DYN: u64 = 0x0005_0000_0000_0004;

const AT_FIVE: u64 = 0x0055_0000_0000_0004;

const AT_SIX: u64 = 0x0065_0000_0000_0004;

/// What is asked, the ready word and the seen one, and what is decided.
#[test]
fn verdicts(rt: HostRuntime) -> Result<(), Fail> {
    let alloc = rt.alloc();
    let table = table_of(alloc, &classes(alloc)?)?;
    let set = |expected, new| Verdict::Set { expected, new };
    let rows = [
        // An integer at `int`, for `Dyn`, `int` and `str`.
        (0, 0, 0x0011_0000_0000_0005, Verdict::Dropped),
        (1, 0, 0x0011_0000_0000_0005, Verdict::Dropped),
        (3, 0, 0x0011_0000_0000_0005, Verdict::Unfit),
        // An integer and a bool at `Dyn`, for `int`.
        (
            1,
            0,
            0x0001_0000_0000_0005,
            set(0x0001_0000_0000_0005, 0x0011_0000_0000_0005),
        ),
        (1, 0, 0x0002_0000_0000_0001, Verdict::Unfit),
        // An object that isn't ready, that is, and that is ready for another type.
        (6, 0, AT_DYN, Verdict::Ready(obligation(6, AT_SIX))),
        (6, AT_SIX, AT_DYN, set(AT_DYN, AT_SIX)),
        (6, AT_FIVE, AT_DYN, Verdict::Ready(obligation(6, AT_SIX))),
        (6, AT_SIX, AT_FIVE, set(AT_FIVE, AT_SIX)),
        (7, 0, AT_DYN, Verdict::Unfit),
        // A function merged to 7, at `Dyn` and at 7, for 8.
        (
            8,
            0,
            0x0006_0000_0000_2007,
            set(0x0006_0000_0000_2007, 0x0086_0000_0000_2009),
        ),
        (
            8,
            0,
            0x0076_0000_0000_2007,
            set(0x0076_0000_0000_2007, 0x0096_0000_0000_2009),
        ),
    ];
    for (to, ready, seen, wanted) in rows {
        assert!(rt; (to as usize) < table.count());
        assert!(rt; is_cell_word(seen, &table));
        assert!(rt;
            resume_demand(obligation(to, ready), seen, &table) == wanted,
            "{seen} for {to}"
        );
    }
    Ok(())
}

#[test]
fn looks(rt: HostRuntime) -> Result<(), Fail> {
    assert!(rt; next_demand(&obligation(6, 0)) == Demand::Look(31));
    let cells = Cells::new(Vec::from_array(rt.alloc(), [AT_DYN, AT_FIVE])?);
    assert!(rt; cells.words() == [AT_DYN, AT_FIVE].as_slice());
    Ok(())
}
