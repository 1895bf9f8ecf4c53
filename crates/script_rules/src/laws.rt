//! What holds of the definitions, whatever the script.
ghost use Rattle.std.specs.Prelude.{[]};
ghost use Rattle.mono_syntax.specs.declared.cast.CastScript.{CastScript};
ghost use Rattle.mono_tree.specs.TypedPrograms.{IsTypedProgram};
ghost use Rattle.script_rules.specs.CastExample.{source, lines, with_lines};
ghost use Rattle.script_rules.specs.SourceCasts.{IsWithCasts};
ghost use Rattle.script_rules.specs.WellTyped.{IsWellTypedProgram};

/// A well-typed script with casts is one whose expressions have types. Tried on a small script: it is its source with casts
/// and typed, and without its lines it is typed still, but no longer its source.
pub fn well_typed_programs()
    ensures typed { (p : CastScript) → IsWellTypedProgram p → IsTypedProgram p }
    ensures example { IsWithCasts source (with_lines lines) }
    ensures example_typed { IsTypedProgram (with_lines lines) }
    ensures lost_typed { IsTypedProgram (with_lines []) }
    ensures lost { IsWithCasts source (with_lines []) → ⊥ }
{}
