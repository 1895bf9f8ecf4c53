ghost use Rattle.std.specs.Prelude.{◌≡◌};
ghost use Rattle.mono_syntax.specs.Ann.{Ann};
ghost use Rattle.script_rules.specs.SourcePlaces.{place_of};

use mono_syntax::{Expr, ExprKind, Place};

/// Where an expression stands: at its first token, or that of its first part. It goes down at most as often as the expression
/// weighs.
pub fn place_of(e: &Expr) -> Place
    ensures { result ≡ place_of e.now }
{
    match &e.kind {
        ExprKind::Local(word) => word.place,
        ExprKind::Int(place, _) => *place,
        ExprKind::Text(place, _) => *place,
        ExprKind::Bool(place, _) => *place,
        ExprKind::Nil(place) => *place,
        ExprKind::Neg(place, _) => *place,
        ExprKind::Not(place, _) => *place,
        ExprKind::Binary(_, _, a, _) => place_of(a.get()),
        ExprKind::And(a, _) => place_of(a.get()),
        ExprKind::Or(a, _) => place_of(a.get()),
        ExprKind::Read(a, _) => place_of(a.get()),
        ExprKind::Call(_, callee, _) => place_of(callee.get()),
        ExprKind::Cast(place, _, _) => *place,
        ExprKind::Join(place, _) => *place,
    }
}
