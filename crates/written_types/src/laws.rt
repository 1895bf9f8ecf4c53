//! What holds of the types that a script writes.
ghost use Rattle.std.specs.Prelude.{◌≡◌, List};
ghost use Rattle.mono_syntax.specs.declared.tree.Script.{Script};
ghost use Rattle.mono_syntax.specs.Ty.{Ty};
ghost use Rattle.written_types.specs.ScriptTypes.{AreScriptTypes};
ghost use Rattle.written_types.specs.TypesExample.{source, types};

/// A script writes one list of types at most. Tried on a small script.
pub fn one_list()
    ensures once { (s : Script) (ts us : List Ty) → AreScriptTypes s ts → AreScriptTypes s us → ts ≡ us }
    ensures example { AreScriptTypes source types }
{}
