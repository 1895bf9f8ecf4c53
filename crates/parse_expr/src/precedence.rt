ghost use Rattle.std.specs.Prelude.{◌≡◌};
ghost use Rattle.parse_expr.specs.Precedence.{op_left, op_whole, op_right};

// How tightly operators bind, by number: 1 a whole expression and `or`, 2 `and`, 3 `not`, 4 comparisons, 5 sums, 6 terms, 7 a
// minus in front, 8 attributes and calls, 9 what stands alone. The reader and the printer compare these numbers.

use mono_syntax::Op;

/// The level of an operator's left part: chains group to the left, and a comparison has no comparison as its part.
pub fn op_left(op: Op) -> u32
    ensures { result ≡ op_left op }
{
    match op {
        Op::Mul | Op::Div | Op::Mod => 6,
        Op::Add | Op::Sub => 5,
        Op::Lt | Op::Le | Op::Gt | Op::Ge | Op::Eq | Op::Ne => 5,
    }
}

/// The level of the whole.
pub fn op_whole(op: Op) -> u32
    ensures { result ≡ op_whole op }
{
    match op {
        Op::Mul | Op::Div | Op::Mod => 6,
        Op::Add | Op::Sub => 5,
        Op::Lt | Op::Le | Op::Gt | Op::Ge | Op::Eq | Op::Ne => 4,
    }
}

/// The level of its right part.
pub fn op_right(op: Op) -> u32
    ensures { result ≡ op_right op }
{
    match op {
        Op::Mul | Op::Div | Op::Mod => 7,
        Op::Add | Op::Sub => 6,
        Op::Lt | Op::Le | Op::Gt | Op::Ge | Op::Eq | Op::Ne => 5,
    }
}
