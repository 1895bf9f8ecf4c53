//! What stands behind a command's word goes to a parser of options with one value each and one last word.
ghost use Rattle.std.specs.Prelude.{◌≡◌, [], true, false, map, codes, IfOk, IfErr, string_bytes};
ghost use Rattle.clap.specs.Faults.{fault_of, is_simple_and_free};
ghost use Rattle.clap.specs.Matches.{found_of};
ghost use Rattle.clap.specs.Simple.{app_of, matches_of, with_rule};
ghost use Rattle.std.specs.List.{fold};
ghost use Rattle.clap.specs.Walk.{rule_of, rows_of};
ghost use Rattle.command_words.specs.CommandLine.{run_options, step_options};
ghost use Rattle.command_words.specs.computed.Parser.{option_rule, last_rule, parser_app};

use crate::fault::WordsFault;
use clap::error::ErrorKind;
use clap::{Arg, ArgAction, ArgMatches, Command};
use std::alloc::{AllocError, Global};

/// The name under which the last word is found.
pub(crate) const LAST: &str = "last";

fn option_arg<'a>(alloc: Global, name: &'a str) -> Arg<'a>
    ensures rule { rule_of result ≡ option_rule name.entry.now }
    ensures local { result.global ≡ false }
{
    Arg::new(alloc, name).long(name).action(ArgAction::Set)
}

fn last_arg<'a>(alloc: Global) -> Arg<'a>
    ensures rule { rule_of result ≡ last_rule }
    ensures local { result.global ≡ false }
{
    Arg::new(alloc, LAST).required(true).action(ArgAction::Set)
}

// Has no options.
pub(crate) fn file_parser<'a>(alloc: Global) -> Result<Command<'a>, AllocError>
    ensures { IfOk result (λ p. app_of p ≡ parser_app []) }
{
    Command::new(alloc, "mono")
        .no_binary_name(true)
        .disable_help_flag(true)
        .disable_version_flag(true)
        .arg(last_arg(alloc))
}

// Has the options of a run too.
fn with_limits<'a>(alloc: Global, parser: Command<'a>) -> Result<Command<'a>, AllocError>
    ensures { IfOk result (λ p. app_of p ≡ fold with_rule (app_of parser.entry) (map option_rule run_options)) }
{
    let with_fuel = parser.arg(option_arg(alloc, "fuel"))?;
    let with_heap = with_fuel.arg(option_arg(alloc, "heap"))?;
    with_heap.arg(option_arg(alloc, "print"))
}

// Has the options of a run.
pub(crate) fn run_parser<'a>(alloc: Global) -> Result<Command<'a>, AllocError>
    ensures { IfOk result (λ p. app_of p ≡ parser_app run_options) }
{
    with_limits(alloc, file_parser(alloc)?)
}

// Has the options of a run in a seed's order.
pub(crate) fn step_parser<'a>(alloc: Global) -> Result<Command<'a>, AllocError>
    ensures { IfOk result (λ p. app_of p ≡ parser_app step_options) }
{
    let with_seed = file_parser(alloc)?.arg(option_arg(alloc, "seed"))?;
    with_limits(alloc, with_seed)
}

pub(crate) fn matches_in<'a>(
    parser: Command<'a>,
    words: &'a [String],
) -> Result<ArgMatches<'a>, WordsFault>
    ensures rows { is_simple_and_free (app_of parser.entry) ≡ true → IfOk result (λ m.
        rows_of (found_of m) ≡ matches_of (app_of parser.entry) (map (λ w. string_bytes w) words.entry.now)) }
    ensures taken { is_simple_and_free (app_of parser.entry) ≡ true → IfOk result (λ m.
        fault_of (app_of parser.entry) (map (λ w. string_bytes w) words.entry.now) ≡ []) }
    ensures usage { is_simple_and_free (app_of parser.entry) ≡ true → IfErr result (λ e. e ≡ WordsFault.Usage →
        fault_of (app_of parser.entry) (map (λ w. string_bytes w) words.entry.now) ≡ [] → ⊥) }
{
    match parser.try_get_matches_from(words) {
        Ok(matches) => Ok(matches),
        Err(error) if error.kind() == ErrorKind::OutOfMemory => Err(WordsFault::Memory),
        Err(_) => Err(WordsFault::Usage),
    }
}
