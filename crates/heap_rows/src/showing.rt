use cast_calculus::{Config, End};
use mono_tree::{CastScript, Val, type_bytes};
use sqlite_items::Items;
use std::alloc::{AllocError, Global};

fn text_of(alloc: Global, bytes: &[u8]) -> Result<String, AllocError> {
    match std::str::from_utf8(bytes) {
        Ok(text) => String::from_str(alloc, text),
        Err(_) => String::from_str(alloc, "no text"),
    }
}

/// A value in a word. An object is told by its address.
fn value_text(alloc: Global, value: &Val) -> Result<String, AllocError> {
    match value {
        Val::Int(n) => format!(in alloc; "{n}"),
        Val::Bool(true) => String::from_str(alloc, "True"),
        Val::Bool(false) => String::from_str(alloc, "False"),
        Val::Nil => String::from_str(alloc, "None"),
        Val::Text(text) => text_of(alloc, text.as_slice()),
        Val::Obj { class: _, base } => format!(in alloc; "@{base}"),
        Val::Fun { func, merged: _ } => format!(in alloc; "function {func}"),
    }
}

/// The recorded type of a field and, behind ` = `, its value; `nothing` where there is no such field.
pub fn cell_text(
    alloc: Global,
    config: &Config,
    base: u32,
    field: &str,
) -> Result<String, AllocError> {
    let Some(cell) = config.cell(base, field.as_bytes()) else {
        return String::from_str(alloc, "nothing");
    };
    let ty = type_bytes(alloc, cell.ty.get())?;
    let ty = text_of(alloc, ty.as_slice())?;
    let value = value_text(alloc, &cell.value)?;
    format!(in alloc; "{ty} = {value}")
}

/// The values of a line with a space between.
fn line_text(alloc: Global, line: &[Val]) -> Result<String, AllocError> {
    let mut text = String::new(alloc);
    for value in line {
        if !text.as_str().is_empty() {
            text.push_str(" ")?;
        }
        let value = value_text(alloc, value)?;
        text.push_str(value.as_str())?;
    }
    Ok(text)
}

/// The lines that were printed, with ` / ` between two of them.
pub fn lines_text(alloc: Global, lines: &[Items<Val>]) -> Result<String, AllocError> {
    let mut text = String::new(alloc);
    for line in lines {
        if !text.as_str().is_empty() {
            text.push_str(" / ")?;
        }
        let line = line_text(alloc, line.as_slice())?;
        text.push_str(line.as_str())?;
    }
    Ok(text)
}

/// The end of a run: `done`, `blame L:C`, `limit: W` for three of the limits, or other words.
pub fn end_text(
    alloc: Global,
    script: &CastScript,
    end: Option<End>,
) -> Result<String, AllocError> {
    match end {
        Some(End::Done) => String::from_str(alloc, "done"),
        Some(End::Blame(site)) => match script.sites.as_slice().get(site as usize) {
            Some(site) => {
                let line = site.place.line;
                let column = site.place.column;
                format!(in alloc; "blame {line}:{column}")
            }
            None => String::from_str(alloc, "blame"),
        },
        Some(End::Fuel) => String::from_str(alloc, "limit: fuel"),
        Some(End::HeapFull) => String::from_str(alloc, "limit: heap"),
        Some(End::PrintFull) => String::from_str(alloc, "limit: print"),
        Some(_) => String::from_str(alloc, "another end"),
        None => String::from_str(alloc, "no end"),
    }
}
