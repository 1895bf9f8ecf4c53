ghost use Rattle.std.specs.Prelude.{◌≡◌, ◌↔◌, ◌<◌, ◌^◌, Some, None};
ghost use Rattle.mono_syntax.specs.declared.value.TypeNo.{TypeNo};
ghost use Rattle.mono_syntax.specs.declared.value.Value.{Value};
ghost use Rattle.field_word.specs.Words.{IsWordOf, IsNoWord};
ghost use Rattle.field_word.specs.computed.Unpacked.{int_in, bool_in, nil_in, text_in, object_in, function_in, value_in, unpacked};

use crate::layout::{
    BOOL_TAG, CLASS_UNIT, CLASSES, FIRST_NEGATIVE, FUN_TAG, FUNC_UNIT, INT_TAG, MOST_TYPES,
    NIL_TAG, OBJ_TAG, TAG_UNIT, TAGS, TEXT_TAG, TEXTS, TYPE_UNIT,
};
use mono_syntax::{ClassNo, FnValue, FuncNo, TypeNo, Value};

/// The type's number and the value of a word, or none where the word is no pair's.
pub fn unpack(w: u64) -> Option<(TypeNo, Value)>
    ensures pair { (t : TypeNo) (v : Value) → (result ≡ Some (t, v)) ↔ IsWordOf t v w }
    ensures none { (result ≡ None) ↔ IsNoWord w }

    // For definitions that read a word: the same as a function.
    ensures computed { result ≡ unpacked w }
{
    pair_in(w)
}

/// The pair by the parts of the word.
fn pair_in(w: u64) -> Option<(TypeNo, Value)>
    ensures { result ≡ unpacked w }
{
    let number = w / TYPE_UNIT;
    if number >= MOST_TYPES {
        return None;
    }
    let value = value_in(w / TAG_UNIT % TAGS, w % TAG_UNIT)?;
    Some((TypeNo(number as u16), value))
}

/// The value of a tag and a payload, if there is one.
fn value_in(tag: u64, payload: u64) -> Option<Value>
    requires { payload < 2 ^ 48 }
    ensures { result ≡ value_in tag payload }
{
    match tag {
        INT_TAG => Some(int_in(payload)),
        BOOL_TAG => bool_in(payload),
        NIL_TAG => nil_in(payload),
        TEXT_TAG => text_in(payload),
        OBJ_TAG => object_in(payload),
        FUN_TAG => function_in(payload),
        _ => None,
    }
}

fn int_in(payload: u64) -> Value
    requires { payload < 2 ^ 48 }
    ensures { result ≡ int_in payload }
{
    if payload < FIRST_NEGATIVE {
        Value::Int(payload as i64)
    } else {
        Value::Int(payload as i64 - TAG_UNIT as i64)
    }
}

fn bool_in(payload: u64) -> Option<Value>
    ensures { result ≡ bool_in payload }
{
    match payload {
        0 => Some(Value::Bool(false)),
        1 => Some(Value::Bool(true)),
        _ => None,
    }
}

fn nil_in(payload: u64) -> Option<Value>
    ensures { result ≡ nil_in payload }
{
    if payload != 0 {
        return None;
    }
    Some(Value::Nil)
}

fn text_in(payload: u64) -> Option<Value>
    ensures { result ≡ text_in payload }
{
    if payload >= TEXTS {
        return None;
    }
    Some(Value::Text(payload as u32))
}

fn object_in(payload: u64) -> Option<Value>
    ensures { result ≡ object_in payload }
{
    if payload >= CLASSES * CLASS_UNIT {
        return None;
    }
    let class = ClassNo((payload / CLASS_UNIT) as u16);
    let base = (payload % CLASS_UNIT) as u32;
    Some(Value::Obj { class, base })
}

fn function_in(payload: u64) -> Option<Value>
    ensures { result ≡ function_in payload }
{
    if payload >= FUNC_UNIT * FUNC_UNIT {
        return None;
    }
    let func = FuncNo((payload / FUNC_UNIT) as u16);
    let merged = TypeNo((payload % FUNC_UNIT) as u16);
    Some(Value::Fun(FnValue { func, merged }))
}
