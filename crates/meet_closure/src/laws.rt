//! What holds of refusals of lists of types.
ghost use Rattle.std.specs.Prelude.{◌≡◌, ◌⊎◌, List};
ghost use Rattle.mono_syntax.specs.Ty.{Ty};
ghost use Rattle.mono_syntax.specs.declared.refusal.Reason.{Reason};
ghost use Rattle.type_shapes.specs.Limits.{IsWithinLimits, IsFirstFault};

/// A list of types is within the limits, or it has a first member at fault; never both, and with one reason. So types are refused
/// exactly where their closed list has a member at fault, and for the first one.
pub fn refusal_laws()
    ensures either { (ts : List Ty) → IsWithinLimits ts ⊎ ((r : Reason) × IsFirstFault ts r) }
    ensures apart { (ts : List Ty) (r : Reason) → IsWithinLimits ts → IsFirstFault ts r → ⊥ }
    ensures one { (ts : List Ty) (r s : Reason) → IsFirstFault ts r → IsFirstFault ts s → r ≡ s }
{}
