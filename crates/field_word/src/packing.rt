ghost use Rattle.std.specs.Prelude.{◌≡◌, ◌<◌, ◌^◌};
ghost use Rattle.field_word.specs.Words.{tag, payload, word_of, int_payload, Fits, FitsPayload, IsWordInteger};

use crate::layout::{
    BOOL_TAG, CLASS_UNIT, FUN_TAG, FUNC_UNIT, INT_TAG, NIL_TAG, OBJ_TAG, TAG_UNIT, TEXT_TAG,
    TYPE_UNIT,
};
use mono_syntax::{TypeNo, Value};

/// The word of a type's number and a value: the number in bits 63 to 52, the tag of the value's kind in bits 51 to 48, and what
/// else there is to say of the value below. The number is below 4,095, an integer from -2^47 to 2^47 - 1, a class below 2^10,
/// and a function's number and its merged type below 2^12.
pub fn pack(t: TypeNo, v: Value) -> u64
    requires { Fits t v }
    ensures { result ≡ word_of t v }
{
    t.0 as u64 * TYPE_UNIT + tag(v) * TAG_UNIT + payload(v)
}

/// The tag of a value's kind.
fn tag(v: Value) -> u64
    ensures { result ≡ tag v }
{
    match v {
        Value::Int(_) => INT_TAG,
        Value::Bool(_) => BOOL_TAG,
        Value::Nil => NIL_TAG,
        Value::Text(_) => TEXT_TAG,
        Value::Obj { .. } => OBJ_TAG,
        Value::Fun(_) => FUN_TAG,
    }
}

/// What a word says of a value besides its kind.
fn payload(v: Value) -> u64
    requires { FitsPayload v }
    ensures value { result ≡ payload v }
    ensures fits { result < 2 ^ 48 }
{
    match v {
        Value::Int(n) => int_payload(n),
        Value::Bool(b) => b as u64,
        Value::Nil => 0,
        Value::Text(text) => text as u64,
        Value::Obj { class, base } => class.0 as u64 * CLASS_UNIT + base as u64,
        Value::Fun(f) => f.func.0 as u64 * FUNC_UNIT + f.merged.0 as u64,
    }
}

/// An integer as two's complement in 48 bits.
fn int_payload(n: i64) -> u64
    requires { IsWordInteger n }
    ensures value { result ≡ int_payload n }
    ensures fits { result < 2 ^ 48 }
{
    if n >= 0 {
        n as u64
    } else {
        (n + TAG_UNIT as i64) as u64
    }
}
