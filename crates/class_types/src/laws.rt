//! What holds of the types that annotations write.
ghost use Rattle.std.specs.Prelude.{◌≡◌, List, Option};
ghost use Rattle.std.specs.List.Sorted.{IsPermutation};
ghost use Rattle.mono_syntax.specs.declared.tree.ClassDef.{ClassDef};
ghost use Rattle.mono_syntax.specs.declared.tree.FuncDef.{FuncDef};
ghost use Rattle.mono_syntax.specs.Ann.{Ann};
ghost use Rattle.mono_syntax.specs.Ty.{Ty, Fields};
ghost use Rattle.mono_tree.specs.FieldNames.{names_of};
ghost use Rattle.mono_tree.specs.IsType.{AreInOrder, IsType};
ghost use Rattle.script_rules.specs.Writes.{Writes, WritesAny, IsClassType, IsFunctionType, in_order};
ghost use Rattle.script_rules.specs.WellFormed.{AreApart, IsNarrow, AreWellFormed};

/// An annotation writes one type at most, and a class or a function has one at most.
pub fn written_types_are_unique()
    ensures annotation { (cs : List ClassDef) (a : Ann) (t u : Ty) → Writes cs a t → Writes cs a u → t ≡ u }
    ensures any { (cs : List ClassDef) (a : Option Ann) (t u : Ty) → WritesAny cs a t → WritesAny cs a u → t ≡ u }
    ensures class { (cs : List ClassDef) (d : ClassDef) (t u : Ty) → IsClassType cs d t → IsClassType cs d u → t ≡ u }
    ensures function { (cs : List ClassDef) (d : FuncDef) (t u : Ty) → IsFunctionType cs d t → IsFunctionType cs d u → t ≡ u }
{}

/// Fields in order have the same names, and distinct names come in order. So where no class has a field twice, and no
/// Callable over eight parameters, the types that annotations write are types of the language.
pub fn written_types_are_types()
    ensures kept { (fs : Fields) → IsPermutation (names_of fs) (names_of (in_order fs)) }
    ensures ordered { (fs : Fields) → AreApart (names_of fs) → AreInOrder (names_of (in_order fs)) }
    ensures types { (cs : List ClassDef) (a : Ann) (t : Ty) → AreWellFormed cs → IsNarrow a → Writes cs a t → IsType t }
{}
