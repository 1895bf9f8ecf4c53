//! What holds of the rules themselves.
ghost use Rattle.std.specs.Prelude.{◌≡◌, List};
ghost use Rattle.mono_syntax.specs.declared.refusal.Refusal.{Refusal};
ghost use Rattle.mono_syntax.specs.declared.tree.Script.{Script};
ghost use Rattle.mono_syntax.specs.Ty.{Ty};
ghost use Rattle.static_types.specs.Scripts.{HasTypes, IsTypeFault};

/// A script has its types in one way.
pub fn one_typing()
    ensures { (s : Script) (ts us : List Ty) → HasTypes s ts → HasTypes s us → ts ≡ us }
{}

/// A script that has its types has no fault of typing.
pub fn typed_or_faulty()
    ensures { (s : Script) (ts : List Ty) (f : Refusal) → HasTypes s ts → IsTypeFault s f → ⊥ }
{}

/// A script has one first fault.
pub fn one_fault()
    ensures { (s : Script) (f g : Refusal) → IsTypeFault s f → IsTypeFault s g → f ≡ g }
{}
