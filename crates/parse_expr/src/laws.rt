//! What holds of the grammar of expressions and types.
ghost use Rattle.parse_expr.specs.Grammar.{OneExpression};
ghost use Rattle.parse_expr.specs.Types.{OneType};

/// Tokens are at most one expression, and at most one type.
pub fn one_expression()
    ensures expression { OneExpression }
    ensures of_type { OneType }
{}
