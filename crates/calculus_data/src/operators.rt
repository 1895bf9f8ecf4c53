ghost use Rattle.std.specs.Prelude.{◌≡◌};
ghost use Rattle.cast_machine.specs.Operators.{same_integer, same_value, truth, counted, valued, operate, negated};

use cast_machine::{Counted, Operated};
use integer_operators::{counted, opposite};
use mono_syntax::{Op, Val};

fn truth(b: bool) -> Operated
    ensures { result ≡ truth b }
{
    Operated::Gives(Val::Bool(b))
}

/// Whether two values are equal.
pub fn same_value(v: &Val, w: &Val) -> bool
    ensures { result ≡ same_value v.now w.now }
{
    match (v, w) {
        (Val::Int(a), Val::Int(b)) => a == b,
        (Val::Bool(a), Val::Bool(b)) => a == b,
        (Val::Nil, Val::Nil) => true,
        (Val::Text(a), Val::Text(b)) => a.as_slice() == b.as_slice(),
        (Val::Obj { class: c, base: a }, Val::Obj { class: d, base: b }) => c == d && a == b,
        (Val::Fun { func: f, merged: _ }, Val::Fun { func: g, merged: _ }) => f == g,
        _ => false,
    }
}

/// What was counted, as a value.
fn valued(count: Counted) -> Operated
    ensures { result ≡ valued count }
{
    match count {
        Counted::Int(n) => Operated::Gives(Val::Int(n)),
        Counted::Truth(b) => truth(b),
        Counted::ZeroDivision => Operated::ZeroDivision,
        Counted::Overflow => Operated::Overflow,
    }
}

/// What a binary operator gives.
pub fn operate(op: Op, v: &Val, w: &Val) -> Operated
    ensures { result ≡ operate op v.now w.now }
{
    match op {
        Op::Eq => truth(same_value(v, w)),
        Op::Ne => truth(!same_value(v, w)),
        op => match (v, w) {
            (Val::Int(a), Val::Int(b)) => valued(counted(op, *a, *b)),
            _ => Operated::Unfit,
        },
    }
}

/// What the negation of a value gives.
pub fn negated(v: &Val) -> Operated
    ensures { result ≡ negated v.now }
{
    match v {
        Val::Int(a) => valued(opposite(*a)),
        _ => Operated::Unfit,
    }
}
