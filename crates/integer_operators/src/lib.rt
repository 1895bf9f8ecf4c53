//! The operators on integers. An operator and two integers come in, and what comes out is the integer or truth value that it gives, or its
//! error: a division by zero, or a result that is no integer of the language. The contract says which; quotients are rounded down.
#![tactic(auto)]

ghost use Rattle.std.specs.Prelude.{◌≡◌, ◌≢◌, pos, neg_ℤ, FitsSigned, ◌+ℤ◌, ◌-ℤ◌, ◌*ℤ◌};
ghost use Rattle.std.specs.Int.{w64};
ghost use Rattle.cast_machine.specs.Operators.{in_range, ranged, floor_quotient, floor_rest, divided, remaining, same_integer, counted};

use cast_machine::Counted;
use mono_syntax::{GREATEST_INTEGER, Op};

/// The integer, where it is one of the language's.
fn ranged(n: i128) -> Counted
    ensures { result ≡ ranged n }
{
    if -(GREATEST_INTEGER as i128) - 1 <= n && n <= GREATEST_INTEGER as i128 {
        Counted::Int(n as i64)
    } else {
        Counted::Overflow
    }
}

fn floor_quotient(a: i128, b: i128) -> i128
    requires a_fits { FitsSigned w64 a }
    requires b_fits { FitsSigned w64 b }
    requires nonzero { b ≢ pos 0 }
    ensures { result ≡ floor_quotient a b }
{
    if b < 0 {
        (-a).div_euclid(-b)
    } else {
        a.div_euclid(b)
    }
}

fn divided(a: i64, b: i64) -> Counted
    ensures { result ≡ divided a b }
{
    if b == 0 {
        return Counted::ZeroDivision;
    }
    ranged(floor_quotient(a as i128, b as i128))
}

fn floor_rest(a: i128, b: i128) -> i128
    requires a_fits { FitsSigned w64 a }
    requires b_fits { FitsSigned w64 b }
    requires nonzero { b ≢ pos 0 }
    ensures { result ≡ floor_rest a b }
{
    if b < 0 {
        -((-a).rem_euclid(-b))
    } else {
        a.rem_euclid(b)
    }
}

fn remaining(a: i64, b: i64) -> Counted
    ensures { result ≡ remaining a b }
{
    if b == 0 {
        return Counted::ZeroDivision;
    }
    ranged(floor_rest(a as i128, b as i128))
}

fn sum(a: i64, b: i64) -> Counted
    ensures { result ≡ ranged (a +ℤ b) }
{
    match a.checked_add(b) {
        Some(n) => ranged(n as i128),
        None => Counted::Overflow,
    }
}

fn difference(a: i64, b: i64) -> Counted
    ensures { result ≡ ranged (a -ℤ b) }
{
    match a.checked_sub(b) {
        Some(n) => ranged(n as i128),
        None => Counted::Overflow,
    }
}

fn product(a: i64, b: i64) -> Counted
    ensures { result ≡ ranged (a *ℤ b) }
{
    match a.checked_mul(b) {
        Some(n) => ranged(n as i128),
        None => Counted::Overflow,
    }
}

/// What an operator makes of two integers.
pub fn counted(op: Op, a: i64, b: i64) -> Counted
    ensures { result ≡ counted op a b }
{
    match op {
        Op::Add => sum(a, b),
        Op::Sub => difference(a, b),
        Op::Mul => product(a, b),
        Op::Div => divided(a, b),
        Op::Mod => remaining(a, b),
        Op::Lt => Counted::Truth(a < b),
        Op::Le => Counted::Truth(a <= b),
        Op::Gt => Counted::Truth(b < a),
        Op::Ge => Counted::Truth(b <= a),
        Op::Eq => Counted::Truth(a == b),
        Op::Ne => Counted::Truth(a != b),
    }
}

/// The integer with the other sign; of the least integer there is none.
pub fn opposite(a: i64) -> Counted
    ensures { result ≡ ranged (neg_ℤ a) }
{
    ranged(-(a as i128))
}
