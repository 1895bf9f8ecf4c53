use crate::{pack, unpack};
use mono_syntax::{ClassNo, FnValue, FuncNo, TypeNo, Value};

/// Pairs with their words, each part at its least and its greatest.
#[test]
fn pairs(rt: HostRuntime) {
    let object = |class, base| Value::Obj {
        class: ClassNo(class),
        base,
    };
    let function = |func, merged| {
        Value::Fun(FnValue {
            func: FuncNo(func),
            merged: TypeNo(merged),
        })
    };
    let rows = [
        (1, Value::Int(-1), 0x0011_ffff_ffff_ffff),
        (6, object(2, 5), 0x0065_0002_0000_0005),
        (7, function(3, 7), 0x0076_0000_0000_3007),
        (0, Value::Int(0), 0x0001_0000_0000_0000),
        (4094, Value::Int(0x7fff_ffff_ffff), 0xffe1_7fff_ffff_ffff),
        (1, Value::Int(-0x8000_0000_0000), 0x0011_8000_0000_0000),
        (2, Value::Bool(false), 0x0022_0000_0000_0000),
        (2, Value::Bool(true), 0x0022_0000_0000_0001),
        (4, Value::Nil, 0x0043_0000_0000_0000),
        (3, Value::Text(0xffff_ffff), 0x0034_0000_ffff_ffff),
        (0, object(0x3ff, 0xffff_ffff), 0x0005_03ff_ffff_ffff),
        (0, function(0xfff, 0xfff), 0x0006_0000_00ff_ffff),
    ];
    for (t, v, w) in rows {
        let Some((number, value)) = unpack(w) else {
            panic!(rt; "nothing in {w}");
        };
        assert_eq!(rt; (number.0, value), (t, v));
        assert_eq!(rt; pack(number, value), w);
    }
}

/// Words that are no pair's.
#[test]
fn nothing(rt: HostRuntime) {
    let words = [
        // No such tag: nothing at all, a claimed header, a number below the tags, and the tags 7 and 15.
        0,
        1,
        0x0000_ffff_ffff_ffff,
        0x0017_0000_0000_0000,
        0x000f_0000_0000_0002,
        // A bool of 2.
        0x0022_0000_0000_0002,
        // A bit of the payload that its kind doesn't use.
        0x0022_8000_0000_0001,
        0x0043_0000_0000_0001,
        0x0034_0001_0000_0000,
        0x0065_0400_0000_0005,
        0x0076_0000_0100_3007,
        // No such type.
        0xfff1_0000_0000_0000,
    ];
    for w in words {
        assert_eq!(rt; unpack(w), None);
    }
}
