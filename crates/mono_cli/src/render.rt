ghost use Rattle.std.specs.Prelude.{◌≡◌, ◌≤◌, ◌∷◌, ◌++◌, [], codes, IsErrOf};
ghost use Rattle.mono_io.specs.Puts.{Puts};
ghost use Rattle.mono_cli.specs.Texts.{class_name, function_name, value_text, line_text, rendered};

use mono_io::{Sink, SinkFault};
use mono_tree::{Item, Val};
use sqlite_items::Items;
use std::alloc::Global;

/// Puts a piece, unless it is empty.
pub fn put_piece<K: Sink>(piece: &[u8], out: &mut K) -> Result<(), SinkFault>
    ensures puts { Puts result (K.told out.old) (K.told out.new) (K.faults out.old) (K.faults out.new) piece.now }
    ensures memory { IsErrOf result SinkFault.Memory → K.told out.new ≡ K.told out.old }
{
    if piece.is_empty() {
        return Ok(());
    }
    out.put(piece)
}

fn put_two<K: Sink>(first: &[u8], second: &[u8], out: &mut K) -> Result<(), SinkFault>
    ensures { Puts result (K.told out.old) (K.told out.new) (K.faults out.old) (K.faults out.new) (first.now ++ second.now) }
{
    match put_piece(first, out) {
        Ok(()) => put_piece(second, out),
        Err(fault) => Err(fault),
    }
}

/// Puts a name behind a text, and `>` behind it.
fn put_named<K: Sink>(before: &str, name: &[u8], out: &mut K) -> Result<(), SinkFault>
    ensures { Puts result (K.told out.old) (K.told out.new) (K.faults out.old) (K.faults out.new) (before.now ++ name.now ++ codes ">") }
{
    match put_two(before.as_bytes(), name, out) {
        Ok(()) => put_piece(">".as_bytes(), out),
        Err(fault) => Err(fault),
    }
}

fn class_name(items: &[Item], number: u32) -> &[u8]
    ensures { result.now ≡ class_name items.now number }
{
    let mut left = number;
    for item in items {
        if let Item::Class(class) = item {
            if left == 0 {
                return class.name.text.as_slice();
            }
            left -= 1;
        }
    }
    &[]
}

fn function_name(items: &[Item], number: u32) -> &[u8]
    ensures { result.now ≡ function_name items.now number }
{
    let mut left = number;
    for item in items {
        if let Item::Def(function) = item {
            if left == 0 {
                return function.name.text.as_slice();
            }
            left -= 1;
        }
    }
    &[]
}

fn put_value<K: Sink>(
    alloc: Global,
    items: &[Item],
    value: &Val,
    out: &mut K,
) -> Result<(), SinkFault>
    ensures { Puts result (K.told out.old) (K.told out.new) (K.faults out.old) (K.faults out.new) (value_text items.now value.now) }
{
    match value {
        Val::Int(n) => {
            let text = n.to_string(alloc)?;
            put_piece(text.as_bytes(), out)
        }
        Val::Bool(true) => put_piece("True".as_bytes(), out),
        Val::Bool(false) => put_piece("False".as_bytes(), out),
        Val::Nil => put_piece("None".as_bytes(), out),
        Val::Text(text) => put_piece(text.as_slice(), out),
        Val::Obj { class, .. } => put_named("<", class_name(items, *class), out),
        Val::Fun { func, .. } => put_named("<function ", function_name(items, *func), out),
    }
}

/// Puts a value, and what stands behind it.
fn put_ended<K: Sink>(
    alloc: Global,
    items: &[Item],
    value: &Val,
    end: &[u8],
    out: &mut K,
) -> Result<(), SinkFault>
    ensures { Puts result (K.told out.old) (K.told out.new) (K.faults out.old) (K.faults out.new) (value_text items.now value.now ++ end.now) }
{
    match put_value(alloc, items, value, out) {
        Ok(()) => put_piece(end, out),
        Err(fault) => Err(fault),
    }
}

fn put_line<K: Sink>(
    alloc: Global,
    items: &[Item],
    line: &[Val],
    out: &mut K,
) -> Result<(), SinkFault>
    ensures { Puts result (K.told out.old) (K.told out.new) (K.faults out.old) (K.faults out.new) (line_text items.now line.now) }
{
    let Some((value, rest)) = line.split_first() else {
        return put_piece("\n".as_bytes(), out);
    };
    if rest.is_empty() {
        return put_ended(alloc, items, value, "\n".as_bytes(), out);
    }
    match put_ended(alloc, items, value, " ".as_bytes(), out) {
        Ok(()) => put_line(alloc, items, rest, out),
        Err(fault) => Err(fault),
    }
}

/// Puts the printed lines of a script with these items, piece by piece.
fn put_lines<K: Sink>(
    alloc: Global,
    items: &[Item],
    lines: &[Items<Val>],
    out: &mut K,
) -> Result<(), SinkFault>
    ensures { Puts result (K.told out.old) (K.told out.new) (K.faults out.old) (K.faults out.new) (rendered items.now lines.now) }
{
    for line in lines {
        if let Err(fault) = put_line(alloc, items, line.as_slice(), out) {
            return Err(fault);
        }
    }
    Ok(())
}

/// Puts a head line, where it isn't empty, and behind it the printed lines.
pub fn put_output<K: Sink>(
    alloc: Global,
    head: &str,
    items: &[Item],
    lines: &[Items<Val>],
    out: &mut K,
) -> Result<(), SinkFault>
    ensures { Puts result (K.told out.old) (K.told out.new) (K.faults out.old) (K.faults out.new) (head.now ++ rendered items.now lines.now) }
{
    match put_piece(head.as_bytes(), out) {
        Ok(()) => put_lines(alloc, items, lines, out),
        Err(fault) => Err(fault),
    }
}
