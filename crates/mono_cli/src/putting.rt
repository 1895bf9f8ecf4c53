ghost use Rattle.std.specs.Prelude.{◌≡◌, ◌++◌, [], IsErrOf, string_bytes};
ghost use Rattle.std.specs.Option.{option_map};
ghost use Rattle.mono_io.specs.Puts.{Puts};
ghost use Rattle.mono_cli.specs.Answer.{line_text};
ghost use Rattle.mono_cli.specs.Putting.{stream, IsPut};
ghost use Rattle.mono_cli.specs.Texts.{rendered};

use crate::render::{put_output, put_piece};
use mono_io::{Sink, SinkFault};
use mono_tree::{Item, Val};
use sqlite_items::Items;
use std::alloc::Global;

/// Puts an err line where there is nothing for out, and gives the status.
pub fn put_err_line<K: Sink, E: Sink>(status: u8, line: &str, out: &mut K, err: &mut E) -> u8
    ensures { IsPut (record { status = status; out = []; err = line.now }) (stream (K.told out.old) (K.told out.new) (K.faults out.old) (K.faults out.new))
        (stream (E.told err.old) (E.told err.new) (E.faults err.old) (E.faults err.new)) result }
{
    match put_piece(line.as_bytes(), err) {
        Ok(()) => status,
        Err(SinkFault::Failed) => 7,
        Err(SinkFault::Memory) => 8,
    }
}

/// Puts the err line of an end, where there is one.
fn put_end_line<E: Sink>(line: &Option<String>, err: &mut E) -> Result<(), SinkFault>
    ensures puts { Puts result (E.told err.old) (E.told err.new) (E.faults err.old) (E.faults err.new) (line_text (option_map string_bytes line.now)) }
    ensures memory { IsErrOf result SinkFault.Memory → E.told err.new ≡ E.told err.old }
{
    match line {
        None => Ok(()),
        Some(line) => put_piece(line.as_bytes(), err),
    }
}

/// Puts the head line, where it isn't empty, and the printed lines on out and then the err line on err, and gives the status. After a put
/// that failed nothing more is put.
pub fn put_run<K: Sink, E: Sink>(
    alloc: Global,
    status: u8,
    head: &str,
    items: &[Item],
    lines: &[Items<Val>],
    line: &Option<String>,
    out: &mut K,
    err: &mut E,
) -> u8
    ensures { IsPut (record { status = status; out = head.now ++ rendered items.now lines.now; err = line_text (option_map string_bytes line.now) }) (stream (K.told out.old) (K.told out.new) (K.faults out.old) (K.faults out.new))
        (stream (E.told err.old) (E.told err.new) (E.faults err.old) (E.faults err.new)) result }
{
    match put_output(alloc, head, items, lines, out) {
        Err(SinkFault::Failed) => 7,
        Err(SinkFault::Memory) => 8,
        Ok(()) => match put_end_line(line, err) {
            Ok(()) => status,
            Err(SinkFault::Failed) => 7,
            Err(SinkFault::Memory) => 8,
        },
    }
}
