ghost use Rattle.std.specs.Prelude.{◌≡◌, ◌≤◌, ◌^◌, length, Contains, IfOk, string_bytes};
ghost use Rattle.mono_syntax.specs.Ty.{Ty};
ghost use Rattle.mono_tree.specs.TypeText.{HasTextNames};
ghost use Rattle.mono_tree.specs.TypedPrograms.{IsTypedProgram};
ghost use Rattle.mono_cli.specs.Scripts.{RunsTo, AnswersText, IsAccepted, IsFueled, IsHeaded, IsRunAnswer};
ghost use Rattle.mono_cli.specs.Answer.{head_text};
ghost use Rattle.mono_cli.specs.Putting.{stream, PutsAnswer};
ghost use Rattle.tree_print.specs.ReadsBack.{IsGrammatical};
ghost use Rattle.mono_syntax.specs.Limits.{most_bytes};

use crate::listing::{put_casts, put_listing, put_passed, put_types};
use crate::putting::put_run;
use crate::refusals::put_refusal;
use crate::verb::Verb;
use cast_calculus::{Config, Settings};
use load_script::{Accepted, load};
use mono_io::Sink;
use mono_tree::{CastScript, LoadFault};
use run_report::{end_line, status_of};
use std::alloc::{AllocError, Global};

/// The run of a script to its end.
fn run(
    alloc: Global,
    script: &CastScript,
    settings: Settings,
    seed: u64,
) -> Result<Config, AllocError>
    requires typed { IsTypedProgram script.now }
    requires some { 1 ≤ settings.fuel }
    requires most { settings.fuel ≤ 2 ^ 40 }
    ensures { IfOk result (λ last. RunsTo script.now settings seed last) }
{
    let config = Config::new(alloc, script, settings)?;
    config.run_by_seed(alloc, script, seed)
}

/// Runs a script, and then puts what it printed, behind a head line where there is one, and how it ended.
fn answer_run<K: Sink, E: Sink>(
    alloc: Global,
    head: &str,
    accepted: &Accepted,
    settings: Settings,
    seed: u64,
    out: &mut K,
    err: &mut E,
) -> u8
    requires typed { IsTypedProgram accepted.now.script }
    requires sites { accepted.now.program.sites ≡ accepted.now.script.sites }
    requires some { 1 ≤ settings.fuel }
    requires most { settings.fuel ≤ 2 ^ 40 }
    ensures { PutsAnswer (λ a. IsHeaded head.now (IsRunAnswer accepted.now.script settings seed) a)
        (stream (K.told out.old) (K.told out.new) (K.faults out.old) (K.faults out.new))
        (stream (E.told err.old) (E.told err.new) (E.faults err.old) (E.faults err.new)) result }
{
    let script = &accepted.script;
    let Ok(config) = run(alloc, script, settings, seed) else {
        return 8;
    };
    let seen = config.observation();
    let end = seen.end.unwrap();
    let Ok(line) = end_line(alloc, end, &accepted.program) else {
        return 8;
    };
    let items = script.scoped.get().script.get().items.get().as_slice();
    put_run(
        alloc,
        status_of(end),
        head,
        items,
        seen.lines.as_slice(),
        &line,
        out,
        err,
    )
}

/// The head line of the stress script of so many tasks.
fn head_line(alloc: Global, tasks: u32) -> Result<String, AllocError>
    requires { tasks ≤ 200 }
    ensures { IfOk result (λ line. string_bytes line ≡ head_text tasks) }
{
    let lines = 12 + 7 * tasks;
    format!(in alloc; "stress {tasks}: {lines} lines\n")
}

/// Runs the stress script of so many tasks, and then puts its head line, what it printed and how it ended.
fn answer_stress_run<K: Sink, E: Sink>(
    alloc: Global,
    tasks: u32,
    accepted: &Accepted,
    settings: Settings,
    seed: u64,
    out: &mut K,
    err: &mut E,
) -> u8
    requires typed { IsTypedProgram accepted.now.script }
    requires sites { accepted.now.program.sites ≡ accepted.now.script.sites }
    requires some { 1 ≤ settings.fuel }
    requires most { settings.fuel ≤ 2 ^ 40 }
    requires tasks { tasks ≤ 200 }
    ensures { PutsAnswer (λ a. IsHeaded (head_text tasks) (IsRunAnswer accepted.now.script settings seed) a)
        (stream (K.told out.old) (K.told out.new) (K.faults out.old) (K.faults out.new))
        (stream (E.told err.old) (E.told err.new) (E.faults err.old) (E.faults err.new)) result }
{
    let Ok(head) = head_line(alloc, tasks) else {
        return 8;
    };
    answer_run(alloc, head.as_str(), accepted, settings, seed, out, err)
}

/// Puts what a command makes of a script.
fn answer_accepted<K: Sink, E: Sink>(
    alloc: Global,
    verb: Verb,
    accepted: &Accepted,
    out: &mut K,
    err: &mut E,
) -> u8
    requires typed { IsTypedProgram accepted.now.script }
    requires sites { accepted.now.program.sites ≡ accepted.now.script.sites }
    requires fueled { IsFueled verb }
    requires tree { IsGrammatical accepted.now.script.scoped.script }
    requires texts { (t : Ty) → Contains accepted.now.script.types t → HasTextNames t }
    ensures { PutsAnswer (λ a. IsAccepted verb accepted.now a) (stream (K.told out.old) (K.told out.new) (K.faults out.old) (K.faults out.new))
        (stream (E.told err.old) (E.told err.new) (E.faults err.old) (E.faults err.new)) result }
{
    let script = &accepted.script;
    match verb {
        Verb::Check => put_passed(out),
        Verb::Show => put_listing(alloc, script.scoped.get().script.get(), out),
        Verb::Casts => put_casts(alloc, script, out),
        Verb::Types => put_types(alloc, accepted.program.table.as_slice(), out),
        Verb::Step(settings, seed) => answer_run(alloc, "", accepted, settings, seed, out, err),
        Verb::Stress(settings, seed, tasks) => {
            answer_stress_run(alloc, tasks, accepted, settings, seed, out, err)
        }
    }
}

/// Puts what the bytes of a script come to.
pub fn answer_text<K: Sink, E: Sink>(
    alloc: Global,
    verb: Verb,
    text: &[u8],
    out: &mut K,
    err: &mut E,
) -> u8
    requires length { length text.now ≤ most_bytes }
    requires fueled { IsFueled verb }
    ensures { PutsAnswer (λ a. AnswersText verb text.now a) (stream (K.told out.old) (K.told out.new) (K.faults out.old) (K.faults out.new))
        (stream (E.told err.old) (E.told err.new) (E.faults err.old) (E.faults err.new)) result }
{
    match load(alloc, text) {
        Ok(accepted) => answer_accepted(alloc, verb, &accepted, out, err),
        Err(LoadFault::Refused(refusal)) => put_refusal(alloc, refusal, out, err),
        Err(LoadFault::Memory) => 8,
    }
}
