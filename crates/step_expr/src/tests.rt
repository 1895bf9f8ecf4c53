ghost use Rattle.std.specs.Prelude.{◌≡◌, ◌≤◌, IsTrue, IfOk, length};
ghost use Rattle.mono_syntax.specs.Ty.{Ty};
ghost use Rattle.mono_tree.specs.TypeNumbers.{IsInRange};
ghost use Rattle.type_numbers.specs.Tables.{IsClass, IsClassType, field_names};
ghost use Rattle.step_expr.specs.Fits.{EndsInMemory, IsOfTable};

use crate::{Fit, OpFault, binary, fit, member, negate};
use meet_closure::close;
use mono_list::Shared;
use mono_syntax::{ClassNo, Field, FnValue, FuncNo, Name, Op, Ty, TyKind, TypeNo, Value};
use sqlite_items::Items;
use std::alloc::{AllocError, Global};
use std::mem;
use std::test::Fail;
use type_numbers::TypeTable;

const GREATEST: i64 = 0x7fff_ffff_ffff;

const LEAST: i64 = -0x8000_0000_0000;

/// Sums, differences, products, quotients and rests, at the borders of the integers and of each sign.
#[test]
fn integers(rt: HostRuntime) {
    let rows = [
        (Op::Add, GREATEST - 1, 1, Ok(GREATEST)),
        (Op::Add, GREATEST, 1, Err(OpFault::Overflow)),
        (Op::Sub, LEAST + 1, 1, Ok(LEAST)),
        (Op::Sub, LEAST, 1, Err(OpFault::Overflow)),
        (Op::Mul, 0x100_0000, -0x80_0000, Ok(LEAST)),
        (Op::Mul, 0x100_0000, 0x80_0000, Err(OpFault::Overflow)),
        (Op::Mul, LEAST, LEAST, Err(OpFault::Overflow)),
        (Op::Div, 7, 2, Ok(3)),
        (Op::Div, -7, 2, Ok(-4)),
        (Op::Div, 7, -2, Ok(-4)),
        (Op::Div, -7, -2, Ok(3)),
        (Op::Div, LEAST, -1, Err(OpFault::Overflow)),
        (Op::Div, LEAST, 0, Err(OpFault::ZeroDivision)),
        (Op::Mod, 7, 2, Ok(1)),
        (Op::Mod, -7, 2, Ok(1)),
        (Op::Mod, 7, -2, Ok(-1)),
        (Op::Mod, -7, -2, Ok(-1)),
        (Op::Mod, LEAST, -1, Ok(0)),
        (Op::Mod, 0, 0, Err(OpFault::ZeroDivision)),
    ];
    for (op, a, b, wanted) in rows {
        let wanted = match wanted {
            Ok(n) => Ok(Value::Int(n)),
            Err(fault) => Err(fault),
        };
        assert!(rt;
            binary(op, Value::Int(a), Value::Int(b)) == wanted,
            "{a} and {b}"
        );
    }
}

#[test]
fn negations(rt: HostRuntime) {
    assert_eq!(rt; negate(GREATEST), Some(LEAST + 1));
    assert_eq!(rt; negate(LEAST + 1), Some(GREATEST));
    assert_eq!(rt; negate(0), Some(0));
    assert_eq!(rt; negate(LEAST), None);
}

fn object(class: u16, base: u32) -> Value {
    Value::Obj {
        class: ClassNo(class),
        base,
    }
}

fn function(func: u16, merged: u16) -> Value {
    Value::Fun(FnValue {
        func: FuncNo(func),
        merged: TypeNo(merged),
    })
}

/// Pairs of values, and whether they are equal. Other operators take integers alone.
#[test]
fn values(rt: HostRuntime) {
    let rows = [
        (Value::Int(3), Value::Int(3), true),
        (Value::Int(3), Value::Int(-3), false),
        (Value::Int(1), Value::Bool(true), false),
        (Value::Bool(true), Value::Bool(true), true),
        (Value::Bool(true), Value::Bool(false), false),
        (Value::Nil, Value::Nil, true),
        (Value::Nil, Value::Int(0), false),
        (Value::Text(4), Value::Text(4), true),
        (Value::Text(4), Value::Text(5), false),
        (object(2, 40), object(2, 40), true),
        (object(2, 40), object(2, 41), false),
        (function(3, 7), function(3, 8), true),
        (function(3, 7), function(4, 7), false),
    ];
    for (a, b, is_same) in rows {
        assert!(rt; binary(Op::Eq, a, b) == Ok(Value::Bool(is_same)));
        assert!(rt; binary(Op::Ne, a, b) == Ok(Value::Bool(!is_same)));
    }
    assert!(rt; binary(Op::Lt, Value::Int(-1), Value::Int(0)) == Ok(Value::Bool(true)));
    assert!(rt; binary(Op::Ge, Value::Int(-1), Value::Int(0)) == Ok(Value::Bool(false)));
    assert!(rt; binary(Op::Lt, Value::Int(0), Value::Bool(true)) == Err(OpFault::Unfit));
    assert!(rt; binary(Op::Div, Value::Nil, Value::Int(0)) == Err(OpFault::Unfit));
}

/// The type that these steps make: `D i b s n` are the base types, `p` makes the last type a parameter, `f` makes a function of the
/// parameters with the last type as its result, `x y` make the last type a field of that name, and `o` makes an object of the fields.
fn build(alloc: Global, steps: &str) -> Result<Ty, AllocError> {
    let mut kind = TyKind::Dyn;
    let mut params = Items::new(alloc);
    let mut members = Items::new(alloc);
    for step in steps.as_bytes() {
        match *step {
            b'i' => kind = TyKind::Int,
            b'b' => kind = TyKind::Bool,
            b's' => kind = TyKind::Str,
            b'n' => kind = TyKind::Nil,
            b'p' => {
                let last = mem::replace(&mut kind, TyKind::Dyn);
                params.push(Shared::new(alloc, Ty { kind: last })?)?;
            }
            b'f' => {
                let last = mem::replace(&mut kind, TyKind::Dyn);
                let taken = mem::replace(&mut params, Items::new(alloc));
                kind = TyKind::Fun(taken, Shared::new(alloc, Ty { kind: last })?);
            }
            b'x' | b'y' => {
                let last = mem::replace(&mut kind, TyKind::Dyn);
                let ty = Shared::new(alloc, Ty { kind: last })?;
                let name = Name::new(alloc, &[*step])?;
                members.push(Field { name, ty })?;
            }
            b'o' => kind = TyKind::Obj(mem::replace(&mut members, Items::new(alloc))),
            _ => kind = TyKind::Dyn,
        }
    }
    Ok(Ty { kind })
}

/// The classes 0 and 1 are of objects. The types of the others are those of functions, so that the table has them.
const CLASSES: u16 = 6;

fn classes(alloc: Global) -> Result<[Ty; 6], AllocError> {
    Ok([
        build(alloc, "ixDyo")?,
        build(alloc, "ixo")?,
        build(alloc, "Dxsyo")?,
        build(alloc, "ipDf")?,
        build(alloc, "Dpbf")?,
        build(alloc, "if")?,
    ])
}

/// The table of the closed list of the classes' types. A refusal counts as an error.
fn table_of(alloc: Global, classes: &[Ty]) -> Result<TypeTable, AllocError>
    ensures { IfOk result (λ table. table.classes ≡ classes.now) }
{
    match close(alloc, classes) {
        Ok(closed) => TypeTable::new(alloc, closed, classes),
        Err(_) => Err(AllocError),
    }
}

/// The number of the type that the steps make. That there is none counts as an error.
fn number(alloc: Global, table: &TypeTable, steps: &str) -> Result<TypeNo, AllocError>
    ensures { IfOk result (IsInRange table.now.types) }
{
    match table.number_of(&build(alloc, steps)?) {
        Some(n) => Ok(n),
        None => Err(AllocError),
    }
}

/// Whether the numbers in a value are in the table's ranges.
fn is_of_table(v: Value, table: &TypeTable) -> bool
    requires { length table.now.classes ≡ CLASSES }
    ensures { IsTrue result → IsOfTable table.now v }
{
    match v {
        Value::Obj { class, base: _ } => class.0 < CLASSES,
        Value::Fun(f) => (f.merged.0 as usize) < table.count(),
        _ => true,
    }
}

/// Values with types, and what their fits come to.
#[test]
fn fits(rt: HostRuntime) -> Result<(), Fail> {
    let alloc = rt.alloc();
    let table = table_of(alloc, &classes(alloc)?)?;
    let declared = number(alloc, &table, "ipDf")?;
    let merged = number(alloc, &table, "ipbf")?;
    let f = function(2, declared.0);
    let rows = [
        (Value::Int(5), "D", Fit::Holds(Value::Int(5))),
        (Value::Int(5), "i", Fit::Holds(Value::Int(5))),
        (Value::Bool(true), "b", Fit::Holds(Value::Bool(true))),
        (Value::Bool(true), "i", Fit::Unfit),
        (Value::Text(3), "s", Fit::Holds(Value::Text(3))),
        (Value::Nil, "n", Fit::Holds(Value::Nil)),
        (Value::Nil, "ixo", Fit::Unfit),
        (f, "D", Fit::Holds(f)),
        (f, "Dpbf", Fit::Holds(function(2, merged.0))),
        (f, "if", Fit::Unfit),
        (f, "i", Fit::Unfit),
        (object(0, 40), "D", Fit::Holds(object(0, 40))),
        (object(0, 40), "Dxsyo", Fit::Opens),
        (object(0, 40), "ixo", Fit::Unfit),
        (object(1, 40), "ixo", Fit::Opens),
        (object(1, 40), "ipDf", Fit::Unfit),
    ];
    for (v, steps, wanted) in rows {
        let to = number(alloc, &table, steps)?;
        assert!(rt; is_of_table(v, &table));
        assert!(rt; fit(v, to, &table) == wanted);
    }
    Ok(())
}

/// Whether the class has at most nine fields.
fn has_few_fields(c: ClassNo, table: &TypeTable) -> bool
    requires { IsClass table.now c }
    ensures { IsTrue result → ((own : Ty) → IsClassType table.now c own → length (field_names own) ≤ 9) }
{
    match table.part(table.class_type(c), 9) {
        Some(_) => false,
        None => true,
    }
}

/// Whether the value's cells surely lie in memory.
fn ends_in_memory(v: Value, table: &TypeTable) -> bool
    requires { IsOfTable table.now v }
    ensures { IsTrue result → EndsInMemory table.now v }
{
    match v {
        Value::Obj { class, base } => base < 100 && has_few_fields(class, table),
        _ => true,
    }
}

/// The cells of the fields `x` and `y`.
#[test]
fn members(rt: HostRuntime) -> Result<(), Fail> {
    let alloc = rt.alloc();
    let table = table_of(alloc, &classes(alloc)?)?;
    let rows = [
        (object(0, 40), Some(40), Some(41)),
        (object(1, 7), Some(7), None),
        (object(3, 7), None, None),
        (Value::Int(40), None, None),
        (function(0, 8), None, None),
    ];
    for (v, x, y) in rows {
        assert!(rt; is_of_table(v, &table));
        assert!(rt; ends_in_memory(v, &table));
        assert_eq!(rt; member(v, "x", &table), x);
        assert_eq!(rt; member(v, "y", &table), y);
    }
    Ok(())
}
