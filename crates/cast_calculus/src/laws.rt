//! What holds of all runs.
ghost use Rattle.std.specs.Prelude.{ℕ, ◌≤◌, List, ◌≡◌, ◌⊎◌, ◌↔◌, Some, slice_get};
ghost use Rattle.mono_syntax.specs.declared.cast.CastScript.{CastScript};
ghost use Rattle.mono_tree.specs.TypedPrograms.{IsTypedProgram};
ghost use Rattle.cast_machine.specs.declared.data.Settings.{Settings};
ghost use Rattle.cast_machine.specs.Step.{run_of, Configuration};
ghost use Rattle.cast_machine.specs.Safety.{IsSafe};
ghost use Rattle.mono_syntax.specs.Ty.{Ty};
ghost use Rattle.mono_syntax.specs.declared.value.Val.{Val};
ghost use Rattle.cast_machine.specs.declared.data.End.{End};
ghost use Rattle.cast_machine.specs.declared.data.End.TheVariants as ends;
ghost use Rattle.cast_machine.specs.Heap.{Heap};
ghost use Rattle.cast_orders.specs.Below.{IsHeapBelow};
ghost use Rattle.cast_orders.specs.FitSteps.{FitReaches, IsUnderWay, HasEnded, IsFailing};
ghost use Rattle.cast_orders.specs.Solutions.{IsSolution, IsWeakest, IsWeakestOfBoth, HasSolution, HaveSolution};

/// Every configuration of a run of a well-typed script, whatever the settings and the picks, is well typed, isn't stuck
/// and holds no blame of a cast that only loses precision; one pick more leaves every field's type at least as precise,
/// and where a cast goes its value has the target type of its own site. All limits are kept, and no type is met but types of
/// the language.
pub fn safe_runs()
    ensures { (p : CastScript) → IsTypedProgram p → (s : Settings) → 1 ≤ s.fuel → (order : List ℕ) → IsSafe p (run_of p s order) }
{
    cast_machine::laws::safe_runs()
}

/// Casts of one value to two types agree in either order: the weakest solutions are the same, or one fails in both orders.
/// A fit of the machine leaves the weakest solution, and blames only where there is none.
pub fn orders_agree()
    // A cast has at most one weakest solution.
    ensures unique { (h : Heap) (v : Val) (a : Ty) (k m : Heap) (w u : Val) → IsWeakest h v a k w → IsWeakest h v a m u → (k ≡ m) × (w ≡ u) }

    // The weakest solution for one type and then for the other is the weakest of all that solve both.
    ensures both { (h : Heap) (v : Val) (a b : Ty) (k m : Heap) (w u : Val) →
        IsWeakest h v a k w → IsWeakest k w b m u → IsWeakestOfBoth h v a b m u }

    // So the two orders give the same heap and value.
    ensures orders { (h : Heap) (v : Val) (a b : Ty) (k m : Heap) (w u : Val) (k' m' : Heap) (w' u' : Val) →
        IsWeakest h v a k w → IsWeakest k w b m u → IsWeakest h v b k' w' → IsWeakest k' w' a m' u' → (m ≡ m') × (u ≡ u') }

    // The second type has a solution behind the first exactly where some heap and value solve both.
    ensures second { (h : Heap) (v : Val) (a b : Ty) (k : Heap) (w : Val) → IsWeakest h v a k w → (HasSolution k w b ↔ HaveSolution h v a b) }

    // From where a fit of v begins in a run, its thread alone takes steps, none after the fit has ended or the thread is
    // failing: every solution is at least as precise as the heap that is reached.
    ensures bounds { (p : CastScript) (c d : Configuration) (t : ℕ) (v : Val) (to : Ty) → FitReaches p c d t v to →
        (k : Heap) (w : Val) → IsSolution c.heap v to k w → IsHeapBelow k d.heap }

    // Where the fit has ended, the heap and the value in its place are the weakest solution.
    ensures ended { (p : CastScript) (c d : Configuration) (t : ℕ) (v : Val) (to : Ty) (f : FitReaches p c d t v to) (e : HasEnded d t (f.begins).rest) →
        (w : Val) × (slice_get (e.frame).values (f.begins).place ≡ Some w) × IsWeakest c.heap v to d.heap w }

    // Where the thread is failing by a blame there is no solution.
    ensures blamed { (p : CastScript) (c d : Configuration) (t : ℕ) (v : Val) (to : Ty) → FitReaches p c d t v to →
        (site : ℕ) → IsFailing d t (ends.Blame site) → HasSolution c.heap v to → ⊥ }

    // There is nothing else: the fit is under way, or it has ended, or the thread is failing.
    ensures whole { (p : CastScript) (c d : Configuration) (t : ℕ) (v : Val) (to : Ty) (f : FitReaches p c d t v to) →
        (IsUnderWay d t (f.begins).rest ⊎ HasEnded d t (f.begins).rest) ⊎ ((e : End) × IsFailing d t e) }
{
    cast_orders::laws::orders_agree()
}
