//! What holds of the types of a script with its casts.
ghost use Rattle.std.specs.Prelude.{List};
ghost use Rattle.mono_syntax.specs.declared.cast.CastScript.{CastScript};
ghost use Rattle.mono_syntax.specs.declared.script.Scoped.{Scoped};
ghost use Rattle.mono_syntax.specs.Ty.{Ty};
ghost use Rattle.mono_tree.specs.ClosedList.{IsClosedList};
ghost use Rattle.script_rules.specs.Scoping.{IsScope};
ghost use Rattle.cast_rules.specs.HasCasts.{HasCasts};
ghost use Rattle.written_types.specs.ScriptTypes.{AreScriptTypes};
ghost use Rattle.program_code.specs.TypesIn.{AreTypesIn};

/// The closed list of the types that a script writes has every type of the script with its casts: those of its sites, of its classes
/// and functions, and of the names of its blocks. A rule asks and gives only types that are written, parts of those, and base types.
pub fn types_stand()
    ensures { (d : Scoped) (p : CastScript) (written l : List Ty) → IsScope d.script d → HasCasts d p → AreScriptTypes d.script written
        → IsClosedList written l → AreTypesIn l p }
{}
