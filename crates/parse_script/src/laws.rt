//! What holds of the grammar itself.
ghost use Rattle.std.specs.Prelude.{List, ℕ};
ghost use Rattle.mono_syntax.specs.declared.tree.Script.{Script};
ghost use Rattle.py_lexer.specs.declared.token.Token.{Token};
ghost use Rattle.parse_script.specs.Script.{DerivesScript, OneTree};
ghost use Rattle.script_shape.specs.Shapes.{IsShaped};

/// A token list has at most one tree.
pub fn one_tree()
    ensures { OneTree }
{}

/// In each tree of a script integer literals fit, each `if` has a branch, and a return stands in a function alone.
pub fn trees_are_shaped()
    ensures { (text : List ℕ) (tokens : List Token) (s : Script) → DerivesScript text tokens s → IsShaped s }
{}
