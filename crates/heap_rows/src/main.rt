//! Runs the scripts of `cases.txt` on the cast calculus, step by step and with the limits of each case, and looks at the heap
//! that they leave; or in the order of each of a row of seeds, and looks at what they print. For each case goes out a line: that the fields
//! named in the case have the recorded types and values that it wants, or that the lines are as wanted, and which end the runs have; or
//! how they differ from what the case wants.
#![tactic(auto)]

ghost use Rattle.std.specs.Prelude.{◌≤◌, ◌^◌};
ghost use Rattle.mono_tree.specs.TypedPrograms.{IsTypedProgram};

mod case;
mod showing;

use case::{Case, Seeds};
use cast_calculus::{Config, Settings, observe, runnable, step};
use load_script::load;
use mono_tree::{CastScript, LoadFault};
use showing::{cell_text, end_text, lines_text};
use std::alloc::{AllocError, Global};
use std::{fs, io};

const LONGEST: usize = 1_048_576;

/// The configuration that a script ends in, with these limits; a run of more than 20,000 steps is left where it then is.
fn ended(alloc: Global, script: &CastScript, settings: Settings) -> Result<Config, AllocError>
    requires some { 1 ≤ settings.fuel }
    requires most { settings.fuel ≤ 2 ^ 40 }
{
    let mut config = Config::new(alloc, script, settings)?;
    for _ in 0..20_000 {
        if !runnable(&config, 0) {
            return Ok(config);
        }
        config = step(alloc, script, &config, 0)?;
    }
    Ok(config)
}

/// How a configuration and its end differ from what a case wants; empty where they don't.
fn differences(
    alloc: Global,
    config: &Config,
    end: &str,
    case: &Case,
) -> Result<String, AllocError> {
    let mut text = String::new(alloc);
    for wanted in &case.cells {
        let found = cell_text(alloc, config, wanted.base, wanted.field.as_str())?;
        if found.as_str() != wanted.holds.as_str() {
            let base = wanted.base;
            let field = wanted.field.as_str();
            let line = format!(in alloc; " {base} {field}: {found};")?;
            text.push_str(line.as_str())?;
        }
    }
    if end != case.end.as_str() {
        let line = format!(in alloc; " end: {end};")?;
        text.push_str(line.as_str())?;
    }
    Ok(text)
}

/// Runs a script with the limits of a case, and says whether it came out as wanted.
fn report_run(
    rt: &HostRuntime,
    script: &CastScript,
    settings: Settings,
    case: &Case,
) -> io::Result<()>
    requires some { 1 ≤ settings.fuel }
    requires most { settings.fuel ≤ 2 ^ 40 }
{
    let alloc = rt.alloc();
    let name = case.name.as_str();
    let config = ended(alloc, script, settings)?;
    let end = end_text(alloc, script, observe(&config).end)?;
    let end = end.as_str();
    let text = differences(alloc, &config, end, case)?;
    if text.as_str().is_empty() {
        println!(rt; "{name}: ok, {end}")
    } else {
        println!(rt; "{name}:{text}")
    }
}

/// What a run in the order of a seed prints, and its end.
fn seeded(
    alloc: Global,
    script: &CastScript,
    settings: Settings,
    seed: u64,
) -> Result<(String, String), AllocError>
    requires typed { IsTypedProgram script.now }
    requires some { 1 ≤ settings.fuel }
    requires most { settings.fuel ≤ 2 ^ 40 }
{
    let config = Config::new(alloc, script, settings)?;
    let last = config.run_by_seed(alloc, script, seed)?;
    let shown = last.observation();
    let lines = lines_text(alloc, shown.lines.as_slice())?;
    let end = end_text(alloc, script, shown.end)?;
    Ok((lines, end))
}

/// Runs a script by each of a row of seeds, and says whether all runs came out as wanted.
fn report_seeds(
    rt: &HostRuntime,
    script: &CastScript,
    settings: Settings,
    case: &Case,
    seeds: Seeds,
) -> io::Result<()>
    requires typed { IsTypedProgram script.now }
    requires some { 1 ≤ settings.fuel }
    requires most { settings.fuel ≤ 2 ^ 40 }
{
    let name = case.name.as_str();
    for seed in seeds.first..=seeds.last {
        let (lines, end) = seeded(rt.alloc(), script, settings, seed)?;
        if lines.as_str() != case.prints.as_str() || end.as_str() != case.end.as_str() {
            let lines = lines.as_str();
            let end = end.as_str();
            return println!(rt; "{name}: by {seed} {lines}, {end}");
        }
    }
    let end = case.end.as_str();
    println!(rt; "{name}: ok, {end}")
}

/// Runs a loaded case.
fn report_script(
    rt: &HostRuntime,
    script: &CastScript,
    settings: Settings,
    case: &Case,
) -> io::Result<()>
    requires typed { IsTypedProgram script.now }
    requires some { 1 ≤ settings.fuel }
    requires most { settings.fuel ≤ 2 ^ 40 }
{
    match case.seeds {
        Some(seeds) => report_seeds(rt, script, settings, case, seeds),
        None => report_run(rt, script, settings, case),
    }
}

/// Runs a case and says whether it came out as wanted.
fn report(rt: &HostRuntime, case: &Case) -> io::Result<()> {
    let alloc = rt.alloc();
    let name = case.name.as_str();
    let bytes = case.script.as_bytes();
    if !case.is_read || bytes.len() > LONGEST {
        return println!(rt; "{name}: not a case");
    }
    let Some(settings) = case.settings() else {
        return println!(rt; "{name}: no such limits");
    };
    match load(alloc, bytes) {
        Ok(accepted) => report_script(rt, &accepted.script, settings, case),
        Err(LoadFault::Refused(_)) => println!(rt; "{name}: refused"),
        Err(LoadFault::Memory) => println!(rt; "{name}: no memory"),
    }
}

fn main(rt: HostRuntime) -> io::Result<()> {
    let text = fs::read_to_string(&rt, "cases.txt")?;
    let mut now: Option<Case> = None;
    for line in text.as_str().lines() {
        let Some((key, value)) = line.split_once('|') else {
            continue;
        };
        if key == "case" {
            if let Some(case) = now.take() {
                report(&rt, &case)?;
            }
            now = Some(Case::new(rt.alloc(), value)?);
        } else if let Some(case) = &mut now {
            case.set(rt.alloc(), key, value)?;
        }
    }
    match now {
        Some(case) => report(&rt, &case),
        None => Ok(()),
    }
}
