ghost use Rattle.std.specs.Prelude.{◌≡◌, ◌≤◌, ◌+◌, ◌^◌, length};
ghost use Rattle.mono_syntax.specs.Ty.{Ty};
ghost use Rattle.mono_tree.specs.TypeNumbers.{IsInRange, Names};
ghost use Rattle.type_numbers.specs.Tables.{IsClass, IsClassType};
ghost use Rattle.step_expr.specs.Fits.{FunctionFits, IsCellOf, IsFit, IsMember, IsOfTable, ObjectFits, EndsBelow, EndsInMemory};

use crate::data::Fit;
use function_wrap::narrow;
use mono_syntax::{ClassNo, FnValue, Ty, TyKind, TypeNo, Value};
use type_numbers::TypeTable;

fn fit_function(f: FnValue, to: TypeNo, table: &TypeTable) -> Fit
    requires merged { IsInRange table.now.types f.merged }
    requires range { IsInRange table.now.types to }
    ensures { (a b : Ty) → Names table.now.types f.merged a → Names table.now.types to b → FunctionFits table.now f a b result }
{
    match narrow(f, to, table) {
        Some(g) => Fit::Holds(Value::Fun(g)),
        None => Fit::Unfit,
    }
}

fn fit_object(c: ClassNo, to: TypeNo, table: &TypeTable) -> Fit
    requires class { IsClass table.now c }
    requires range { IsInRange table.now.types to }
    ensures { (own b : Ty) → IsClassType table.now c own → Names table.now.types to b → ObjectFits own b result }
{
    if table.same_names(c, to) {
        Fit::Opens
    } else {
        Fit::Unfit
    }
}

/// The fit to a type that comes as a tree too.
fn fit_kind(v: Value, ty: &Ty, to: TypeNo, table: &TypeTable) -> Fit
    requires value { IsOfTable table.now v }
    requires range { IsInRange table.now.types to }
    requires named { Names table.now.types to ty.now }
    ensures { IsFit table.now v ty.now result }
{
    match (v, &ty.kind) {
        (v, TyKind::Dyn) => Fit::Holds(v),
        (Value::Int(n), TyKind::Int) => Fit::Holds(Value::Int(n)),
        (Value::Bool(b), TyKind::Bool) => Fit::Holds(Value::Bool(b)),
        (Value::Text(text), TyKind::Str) => Fit::Holds(Value::Text(text)),
        (Value::Nil, TyKind::Nil) => Fit::Holds(Value::Nil),
        (Value::Fun(f), TyKind::Fun(_, _)) => fit_function(f, to, table),
        (Value::Obj { class, base: _ }, TyKind::Obj(_)) => fit_object(class, to, table),
        _ => Fit::Unfit,
    }
}

/// The fit of a value to a type: `Holds` for `Dyn`, for a base value of the type's kind and for a function that has a meet with
/// the type; `Opens` for an object with exactly the type's names; else `Unfit`.
pub fn fit(v: Value, to: TypeNo, table: &TypeTable) -> Fit
    requires value { IsOfTable table.now v }
    requires range { IsInRange table.now.types to }
    ensures { (b : Ty) → Names table.now.types to b → IsFit table.now v b result }
{
    fit_kind(v, table.ty(to), to, table)
}

fn field_cell(c: ClassNo, base: u32, name: &str, table: &TypeTable) -> Option<u32>
    requires class { IsClass table.now c }
    requires cells { (own : Ty) → IsClassType table.now c own → EndsBelow own base }
    ensures { (own : Ty) → IsClassType table.now c own → IsCellOf own base name.now result }
{
    let place = table.field_at(c, name)?;
    Some(base + place)
}

/// The cell in which an object keeps the field of this name; None where the value is no object or has no such field.
pub fn member(v: Value, name: &str, table: &TypeTable) -> Option<u32>
    requires value { IsOfTable table.now v }
    requires cells { EndsInMemory table.now v }
    ensures { IsMember table.now v name.now result }
{
    match v {
        Value::Obj { class, base } => field_cell(class, base, name, table),
        _ => None,
    }
}
