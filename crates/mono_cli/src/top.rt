ghost use Rattle.std.specs.Prelude.{◌≡◌, ◌≤◌, map, string_bytes};
ghost use Rattle.mono_cli.specs.Commands.{AnswersFile, AnswersCommand, IsAnswer, IsServable};
ghost use Rattle.mono_cli.specs.Answer.{usage};
ghost use Rattle.mono_cli.specs.Scripts.{AnswersText, IsFueled};
ghost use Rattle.mono_cli.specs.declared.verb.Verb.TheVariants as verb;
ghost use Rattle.stress_gen.specs.StressText.{stress_text};
ghost use Rattle.mono_cli.specs.Putting.{stream, IsPut, PutsAnswer};
ghost use Rattle.mono_cli.specs.Top.{Answers, HasCause, PutsErrLast, RefusesExactly, RunsSafely, asked};

use crate::putting::put_err_line;
use crate::refusals::put_refusal;
use crate::run::answer_text;
use crate::verb::Verb;
use cast_calculus::Settings;
use command_words::{Command, WordsFault, read_words};
use mono_io::{Shelf, ShelfFault, Sink};
use mono_syntax::MOST_BYTES;
use mono_tree::{Place, Reason, Refusal};
use std::alloc::Global;
use stress_gen::script_of;

/// The bytes of a script, at most.
const LIMIT: u64 = MOST_BYTES as u64;

const TOO_LONG: Refusal = Refusal {
    place: Place { line: 1, column: 1 },
    reason: Reason::TooLong,
};

/// The answer to words that are no command line, or that ask for what isn't served.
fn put_usage<K: Sink, E: Sink>(out: &mut K, err: &mut E) -> u8
    ensures { IsPut usage (stream (K.told out.old) (K.told out.new) (K.faults out.old) (K.faults out.new))
        (stream (E.told err.old) (E.told err.new) (E.faults err.old) (E.faults err.new)) result }
{
    put_err_line(
        2,
        "usage: mono check|show|casts|types|step|run|stress [OPTIONS] FILE\n",
        out,
        err,
    )
}

/// Does with the script of this name what the command says.
fn answer_file<H: Shelf, K: Sink, E: Sink>(
    alloc: Global,
    verb: Verb,
    file: &str,
    shelf: &mut H,
    out: &mut K,
    err: &mut E,
) -> u8
    requires { IsFueled verb }
    ensures { PutsAnswer (λ a. AnswersFile verb file.now (H.told shelf.old) (H.faults shelf.old) (H.faults shelf.new) a)
        (stream (K.told out.old) (K.told out.new) (K.faults out.old) (K.faults out.new))
        (stream (E.told err.old) (E.told err.new) (E.faults err.old) (E.faults err.new)) result }
{
    match shelf.fetch(alloc, file, LIMIT) {
        Ok(bytes) => answer_text(alloc, verb, bytes.as_slice(), out, err),
        Err(ShelfFault::TooLong) => put_refusal(alloc, TOO_LONG, out, err),
        Err(ShelfFault::Failed) => put_err_line(6, "error: script not fetched\n", out, err),
        Err(ShelfFault::Memory) => 8,
    }
}

/// Runs the stress script of so many tasks.
fn answer_stress<K: Sink, E: Sink>(
    alloc: Global,
    settings: Settings,
    seed: u64,
    tasks: u32,
    out: &mut K,
    err: &mut E,
) -> u8
    requires some { 1 ≤ tasks }
    requires fueled { IsFueled (verb.Stress settings seed tasks) }
    ensures { PutsAnswer (λ a. AnswersText (verb.Stress settings seed tasks) (stress_text tasks) a)
        (stream (K.told out.old) (K.told out.new) (K.faults out.old) (K.faults out.new))
        (stream (E.told err.old) (E.told err.new) (E.faults err.old) (E.faults err.new)) result }
{
    let Ok(text) = script_of(alloc, tasks) else {
        return 8;
    };
    if text.len() as u64 > LIMIT {
        return put_refusal(alloc, TOO_LONG, out, err);
    }
    answer_text(
        alloc,
        Verb::Stress(settings, seed, tasks),
        text.as_bytes(),
        out,
        err,
    )
}

/// Does what a command asks for.
fn answer_command<H: Shelf, K: Sink, E: Sink>(
    alloc: Global,
    command: &Command,
    shelf: &mut H,
    out: &mut K,
    err: &mut E,
) -> u8
    requires { IsServable command.now }
    ensures { PutsAnswer (λ a. AnswersCommand command.now (H.told shelf.old) (H.faults shelf.old) (H.faults shelf.new) a)
        (stream (K.told out.old) (K.told out.new) (K.faults out.old) (K.faults out.new))
        (stream (E.told err.old) (E.told err.new) (E.faults err.old) (E.faults err.new)) result }
{
    match command {
        Command::Check(file) => answer_file(alloc, Verb::Check, file.as_str(), shelf, out, err),
        Command::Show(file) => answer_file(alloc, Verb::Show, file.as_str(), shelf, out, err),
        Command::Casts(file) => answer_file(alloc, Verb::Casts, file.as_str(), shelf, out, err),
        Command::Types(file) => answer_file(alloc, Verb::Types, file.as_str(), shelf, out, err),
        Command::Step(settings, seed, file) => {
            let verb = Verb::Step(*settings, *seed);
            answer_file(alloc, verb, file.as_str(), shelf, out, err)
        }
        Command::Run(..) => put_usage(out, err),
        Command::Stress(settings, seed, tasks) => {
            answer_stress(alloc, *settings, *seed, *tasks, out, err)
        }
    }
}

fn answer<H: Shelf, K: Sink, E: Sink>(
    alloc: Global,
    words: &[String],
    shelf: &mut H,
    out: &mut K,
    err: &mut E,
) -> u8
    ensures { PutsAnswer (λ a. IsAnswer (map (λ w. string_bytes w) words.now) (H.told shelf.old) (H.faults shelf.old) (H.faults shelf.new) a)
        (stream (K.told out.old) (K.told out.new) (K.faults out.old) (K.faults out.new))
        (stream (E.told err.old) (E.told err.new) (E.faults err.old) (E.faults err.new)) result }
{
    match read_words(alloc, words) {
        Ok(command) => answer_command(alloc, &command, shelf, out, err),
        Err(WordsFault::Usage) => put_usage(out, err),
        Err(WordsFault::Memory) => 8,
    }
}

/// Does what a command asks for, on one host thread, and gives its status: the words after the program's name come with
/// the shelf that has the script and the sinks for output and for the err line. The command is `check`, which says whether
/// anything is wrong with the script, `show`, which prints it, `casts` and `types`, which list its casts and its closed types, `step`, which
/// runs it within its options' limits and in the order of its seed, or `stress`, which so runs a script that it makes. `run` isn't served yet.
///
/// | status | when |
/// |---|---|
/// | 0 | a run came to its end, or another command accepted the script |
/// | 1 | the script is refused |
/// | 2 | the words are no command |
/// | 3 | a blame |
/// | 4 | a division by zero, an overflow or an unbound name |
/// | 5 | a limit |
/// | 6 | the fetch failed |
/// | 7 | a put failed |
/// | 8 | there was no memory |
pub fn plain_main<H: Shelf, K: Sink, E: Sink>(
    alloc: Global,
    words: &[String],
    shelf: &mut H,
    out: &mut K,
    err: &mut E,
) -> u8
    // A script is refused exactly where the language's rules refuse its bytes.
    ensures refuses { RefusesExactly (asked (map (λ w. string_bytes w) words.now) (H.told shelf.old) (H.faults shelf.old) (H.faults shelf.new))
        (stream (K.told out.old) (K.told out.new) (K.faults out.old) (K.faults out.new))
        (stream (E.told err.old) (E.told err.new) (E.faults err.old) (E.faults err.new)) result }

    // What is put, with the status, is the answer of the rules: for a script that they accept, what its run in the seed's order prints and
    // how it ends, or its text, which reads back, its casts or its types. Where a put fails or memory runs out it is a part of that.
    ensures output { PutsAnswer (Answers (asked (map (λ w. string_bytes w) words.now) (H.told shelf.old) (H.faults shelf.old) (H.faults shelf.new)))
        (stream (K.told out.old) (K.told out.new) (K.faults out.old) (K.faults out.new))
        (stream (E.told err.old) (E.told err.new) (E.faults err.old) (E.faults err.new)) result }

    // The err line comes behind all of the output.
    ensures err { PutsErrLast (asked (map (λ w. string_bytes w) words.now) (H.told shelf.old) (H.faults shelf.old) (H.faults shelf.new))
        (stream (K.told out.old) (K.told out.new) (K.faults out.old) (K.faults out.new))
        (stream (E.told err.old) (E.told err.new) (E.faults err.old) (E.faults err.new)) result }

    // Each status has its cause.
    ensures status { HasCause (asked (map (λ w. string_bytes w) words.now) (H.told shelf.old) (H.faults shelf.old) (H.faults shelf.new))
        (stream (K.told out.old) (K.told out.new) (K.faults out.old) (K.faults out.new))
        (stream (E.told err.old) (E.told err.new) (E.faults err.old) (E.faults err.new)) result }

    // Every run of an accepted script is safe.
    ensures safe { RunsSafely (asked (map (λ w. string_bytes w) words.now) (H.told shelf.old) (H.faults shelf.old) (H.faults shelf.new)) }
{
    answer(alloc, words, shelf, out, err)
}
