//! What holds of what is known of names.
ghost use Rattle.std.specs.Prelude.{◌≡◌};
ghost use Rattle.mono_syntax.specs.declared.tree.Script.{Script};
ghost use Rattle.known_names.specs.declared.known.KnownScript.{KnownScript};
ghost use Rattle.known_names.specs.IsKnown.{IsKnownScript};

/// What is known of a script's names is one thing.
pub fn one_known()
    ensures { (s : Script) (a b : KnownScript) → IsKnownScript s a → IsKnownScript s b → a ≡ b }
{}
