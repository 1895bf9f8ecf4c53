ghost use Rattle.std.specs.Prelude.{◌≡◌};
ghost use Rattle.mono_cli.specs.Answer.{refused};
ghost use Rattle.mono_cli.specs.Putting.{stream, PutsAnswer};

use crate::putting::put_err_line;
use mono_io::Sink;
use mono_tree::Refusal;
use run_report::refusal_line;
use std::alloc::Global;

/// Puts a refusal.
pub fn put_refusal<K: Sink, E: Sink>(
    alloc: Global,
    refusal: Refusal,
    out: &mut K,
    err: &mut E,
) -> u8
    ensures { PutsAnswer (λ a. a ≡ refused refusal) (stream (K.told out.old) (K.told out.new) (K.faults out.old) (K.faults out.new))
        (stream (E.told err.old) (E.told err.new) (E.faults err.old) (E.faults err.new)) result }
{
    let Ok(line) = refusal_line(alloc, &refusal) else {
        return 8;
    };
    put_err_line(1, line.as_str(), out, err)
}
