ghost use Rattle.std.specs.Prelude.{◌≡◌, ◌↔◌, IsTrue, IsNone, IfSome, negsuc, neg_ℤ};
ghost use Rattle.mono_syntax.specs.Limits.{greatest_integer};
ghost use Rattle.cast_machine.specs.Operators.{in_range};
ghost use Rattle.step_expr.specs.Operators.{binary_of, same_value, valued};

use crate::data::OpFault;
use cast_machine::Counted;
use integer_operators::{counted, opposite};
use mono_syntax::{Op, Value};

/// Whether two values are equal: the same integer, the same bool, both None, the same text, the same object, or the same function
/// whatever its merged types.
fn same_value(a: Value, b: Value) -> bool
    ensures { result ≡ same_value a b }
{
    match (a, b) {
        (Value::Int(a), Value::Int(b)) => a == b,
        (Value::Bool(a), Value::Bool(b)) => a == b,
        (Value::Nil, Value::Nil) => true,
        (Value::Text(a), Value::Text(b)) => a == b,
        (Value::Obj { class: c, base: a }, Value::Obj { class: d, base: b }) => c == d && a == b,
        (Value::Fun(f), Value::Fun(g)) => f.func == g.func,
        _ => false,
    }
}

/// What was counted, as a value.
fn valued(count: Counted) -> Result<Value, OpFault>
    ensures { result ≡ valued count }
{
    match count {
        Counted::Int(n) => Ok(Value::Int(n)),
        Counted::Truth(b) => Ok(Value::Bool(b)),
        Counted::ZeroDivision => Err(OpFault::ZeroDivision),
        Counted::Overflow => Err(OpFault::Overflow),
    }
}

/// What a binary operator gives. `==` and `!=` compare values of any kinds, and values of two kinds are unequal. The others take
/// integers: the fault is `Unfit` where one of both is none, else `ZeroDivision` where `//` or `%` has 0 on the right, else
/// `Overflow` where the result is out of range. `//` rounds down, and what `%` gives has the sign of the right operand.
pub fn binary(op: Op, a: Value, b: Value) -> Result<Value, OpFault>
    ensures { result ≡ binary_of op a b }
{
    match op {
        Op::Eq => Ok(Value::Bool(same_value(a, b))),
        Op::Ne => Ok(Value::Bool(!same_value(a, b))),
        op => match (a, b) {
            (Value::Int(a), Value::Int(b)) => valued(counted(op, a, b)),
            _ => Err(OpFault::Unfit),
        },
    }
}

/// The negation of an integer; None at -2^47 alone.
pub fn negate(a: i64) -> Option<i64>
    requires { IsTrue (in_range a) }
    ensures negated { IfSome result (λ n. n ≡ neg_ℤ a) }
    ensures least { IsNone result ↔ (a ≡ negsuc greatest_integer) }
    ensures range { IfSome result (λ n. IsTrue (in_range n)) }
{
    match opposite(a) {
        Counted::Int(n) => Some(n),
        _ => None,
    }
}
