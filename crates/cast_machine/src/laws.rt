ghost use Rattle.std.specs.Prelude.{ℕ, ◌≤◌, List};
ghost use Rattle.mono_syntax.specs.declared.cast.CastScript.{CastScript};
ghost use Rattle.mono_tree.specs.TypedPrograms.{IsTypedProgram};
ghost use Rattle.cast_machine.specs.declared.data.Settings.{Settings};
ghost use Rattle.cast_machine.specs.Step.{run_of};
ghost use Rattle.cast_machine.specs.Safety.{IsSafe};
ghost use Rattle.cast_machine.specs.Examples.{AreExampleSteps};

/// Every configuration of a run of a well-typed script is well typed and isn't stuck, and holds no blame of a cast that
/// only loses precision. One pick more leaves every field's type at least as precise, where a cast goes its value has the
/// target type of its own site, all limits are kept, and no type is met but types of the language.
pub fn safe_runs()
    ensures { (p : CastScript) → IsTypedProgram p → (s : Settings) → 1 ≤ s.fuel → (order : List ℕ) → IsSafe p (run_of p s order) }
{}

/// Steps on small configurations, of calls and threads, at each limit and behind a recorded end, are those that were worked
/// out by hand.
pub fn example_steps()
    ensures { (given : CastScript) → AreExampleSteps given }
{}
