//! What holds of the rules themselves.
ghost use Rattle.std.specs.Prelude.{◌≡◌, ℕ, List, [], Some, Contains, length, slice_get};
ghost use Rattle.mono_syntax.specs.declared.cast.CastScript.{CastScript};
ghost use Rattle.mono_syntax.specs.declared.cast.NamedType.{NamedType};
ghost use Rattle.mono_syntax.specs.declared.leaf.Kind.TheVariants as kind;
ghost use Rattle.mono_syntax.specs.declared.leaf.Site.{Site};
ghost use Rattle.mono_syntax.specs.declared.refusal.Refusal.{Refusal};
ghost use Rattle.mono_syntax.specs.declared.script.Scoped.{Scoped};
ghost use Rattle.mono_syntax.specs.declared.tree.Script.{Script};
ghost use Rattle.mono_syntax.specs.CastExpr.{CastExpr};
ghost use Rattle.mono_syntax.specs.Ty.{Ty};
ghost use Rattle.mono_tree.specs.IsType.{IsType};
ghost use Rattle.mono_tree.specs.Meet.{Consistent};
ghost use Rattle.mono_tree.specs.TypedPrograms.{Scope, HasStaticType};
ghost use Rattle.script_rules.specs.CastExample.{scoped, lines, with_lines};
ghost use Rattle.script_rules.specs.ScopeFaults.{IsRight};
ghost use Rattle.mono_tree.specs.TypeText.{HasTextNames};
ghost use Rattle.script_rules.specs.Scoping.{IsScope, class_list};
ghost use Rattle.cast_rules.specs.TextNames.{HaveTextFields};
ghost use Rattle.script_rules.specs.WellTyped.{IsWellTypedProgram};
ghost use Rattle.script_shape.specs.Shapes.{IsShaped};
ghost use Rattle.static_types.specs.Scripts.{HasTypes, IsTypeFault};
ghost use Rattle.cast_rules.specs.HasCasts.{HasCasts};
ghost use Rattle.cast_rules.specs.TypingReasons.{IsTypingReason};

/// The rules leave one thing open, the order of the list of types: a script with casts over a given list is the only one.
pub fn one_result()
    ensures { (d : Scoped) (p q : CastScript) → HasCasts d p → HasCasts d q → p.types ≡ q.types → p ≡ q }
{}

/// Whatever the order of that list, a script has as many functions, classes and sites.
pub fn one_count()
    ensures { (d e : Scoped) (p q : CastScript) → d.script ≡ e.script → HasCasts d p → HasCasts e q
        → (length p.functions ≡ length q.functions) × (length p.classes ≡ length q.classes) × (length p.sites ≡ length q.sites) }
{}

/// A script that has its casts has its types.
pub fn typed_before()
    ensures { (d : Scoped) (p : CastScript) → HasCasts d p → (ts : List Ty) × HasTypes d.script ts }
{}

/// A script of the grammar with its casts is well typed in every respect, where its names are right and nothing in it is too large: each
/// site stands at its construct, and of two casts at one place the inner one comes first.
pub fn well_typed()
    ensures { (d : Scoped) (p : CastScript) → IsShaped d.script → IsRight d.script → IsScope d.script d → HasCasts d p → IsWellTypedProgram p }
{}

/// A cast stands only between two types that have a meet.
pub fn consistent_casts()
    ensures { (d : Scoped) (p : CastScript) (k : ℕ) (x : Site) (s t : Ty) → HasCasts d p → slice_get p.sites k ≡ Some x → x.kind ≡ kind.Cast
        → slice_get p.types x.source.0 ≡ Some s → slice_get p.types x.target.0 ≡ Some t → Consistent s t }
{}

/// In a well-typed script each expression has one type, in every block whose names have types of the language.
pub fn one_type()
    ensures { (p : CastScript) (s : Scope) (e : CastExpr) (t u : Ty) → IsWellTypedProgram p
        → ((n : NamedType) → Contains s.names n → IsType n.ty) → ((n : NamedType) → Contains s.threads n → IsType n.ty)
        → HasStaticType p s e t → HasStaticType p s e u → t ≡ u }
{}

/// A script of the grammar whose names are right has no fault of typing but these: so what the phases before look at is never found here.
pub fn typing_reasons()
    ensures { (s : Script) (f : Refusal) → IsShaped s → IsRight s → IsTypeFault s f → IsTypingReason f.reason }
{}

/// The definitions tried on a small script: it has its casts, and not where its lines are left out.
pub fn example_casts()
    ensures example { HasCasts scoped (with_lines lines) }
    ensures lost { HasCasts scoped (with_lines []) → ⊥ }
{}

/// Where the fields of a script's classes have names that are text, so have the types of its sites.
pub fn text_names()
    ensures { (d : Scoped) (p : CastScript) → HaveTextFields (class_list d.script) → HasCasts d p → (t : Ty) → Contains p.types t → HasTextNames t }
{}
