ghost use Rattle.std.specs.Prelude.{◌≡◌, List, IfOk, Contains, string_bytes};
ghost use Rattle.std.specs.Option.{option_copied};
ghost use Rattle.mono_syntax.specs.Ty.{Ty};
ghost use Rattle.mono_tree.specs.TypeText.{HasTextNames};
ghost use Rattle.cast_lines.specs.declared.rows.Row.{Row};
ghost use Rattle.cast_lines.specs.CastLines.{kind_name, has_types, AreRows, type_at, types_text, site_line, row_line, rows_text};

use crate::rows::{Row, rows_of};
use mono_list::Shared;
use mono_syntax::{CastScript, Kind, Site, Ty, TyAt};
use mono_tree::type_text;
use std::alloc::{AllocError, Global};

fn kind_name(kind: Kind) -> &'static str
    ensures { result.now ≡ kind_name kind }
{
    match kind {
        Kind::Cast => "cast",
        Kind::Argument => "argument",
        Kind::Write => "write",
        Kind::Return => "return",
        Kind::Operator => "operator",
        Kind::Member => "member",
        Kind::Call => "call",
        Kind::Arithmetic => "arithmetic",
        Kind::Name => "name",
    }
}

/// Whether a line names the two types of a site.
fn has_types(kind: Kind) -> bool
    ensures { result ≡ has_types kind }
{
    matches!(
        kind,
        Kind::Cast | Kind::Argument | Kind::Write | Kind::Return
    )
}

/// The text of a type by its position.
fn text_at(alloc: Global, types: &[Shared<Ty>], at: TyAt) -> Result<String, AllocError>
    requires texts { (t : Ty) → Contains types.now t → HasTextNames t }
    ensures { IfOk result (λ text. string_bytes text ≡ type_at types.now at) }
{
    match types.get(at.0 as usize) {
        Some(ty) => type_text(alloc, ty.get()),
        None => Ok(String::new(alloc)),
    }
}

/// The two types of a site, where its line names them.
fn types_text(alloc: Global, types: &[Shared<Ty>], site: &Site) -> Result<String, AllocError>
    requires texts { (t : Ty) → Contains types.now t → HasTextNames t }
    ensures { IfOk result (λ text. string_bytes text ≡ types_text (has_types site.now.kind) types.now site.now) }
{
    if !has_types(site.kind) {
        return Ok(String::new(alloc));
    }
    let source = text_at(alloc, types, site.source)?;
    let target = text_at(alloc, types, site.target)?;
    format!(in alloc; " {source} => {target}")
}

fn site_line(alloc: Global, types: &[Shared<Ty>], site: &Site) -> Result<String, AllocError>
    requires texts { (t : Ty) → Contains types.now t → HasTextNames t }
    ensures { IfOk result (λ text. string_bytes text ≡ site_line types.now site.now) }
{
    let line = site.place.line;
    let column = site.place.column;
    let kind = kind_name(site.kind);
    let types = types_text(alloc, types, site)?;
    format!(in alloc; "{line}:{column} {kind}{types}\n")
}

fn row_line(alloc: Global, script: &CastScript, row: &Row) -> Result<String, AllocError>
    requires texts { (t : Ty) → Contains script.now.types t → HasTextNames t }
    ensures { IfOk result (λ text. string_bytes text ≡ row_line script.now row.now) }
{
    match script.sites.as_slice().get(row.number) {
        Some(site) => site_line(alloc, script.types.as_slice(), site),
        None => Ok(String::new(alloc)),
    }
}

/// The lines of the sites in this order.
fn rows_text(alloc: Global, script: &CastScript, rows: &[Row]) -> Result<String, AllocError>
    requires texts { (t : Ty) → Contains script.now.types t → HasTextNames t }
    ensures { IfOk result (λ text. string_bytes text ≡ rows_text script.now rows.now) }
{
    let mut text = String::new(alloc);
    for row in rows {
        let line = row_line(alloc, script, row)?;
        text.push_str(line.as_str())?;
    }
    Ok(text)
}

/// A line for each site that a value passes on its way: casts, arguments, writes and returns with the type that comes and the type
/// that is asked for, and operators, members and calls of which only the place is known. The lines are in the order of
/// their places, and at one place in that of the kinds; of two casts at one place the inner one comes first.
pub fn print_casts(alloc: Global, script: &CastScript) -> Result<String, AllocError>
    requires texts { (t : Ty) → Contains script.now.types t → HasTextNames t }
    ensures { IfOk result (λ text. (rows : List Row) × AreRows script.now.sites rows × (string_bytes text ≡ rows_text script.now rows)) }
{
    let rows = rows_of(alloc, script.sites.as_slice())?;
    rows_text(alloc, script, rows.as_slice())
}
