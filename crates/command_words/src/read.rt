//! Reads a command line: its word, and then what the parser gives of the words behind it.
ghost use Rattle.std.specs.Prelude.{◌≡◌, ◌≤◌, ◌∷◌, ℕ, List, IfOk, IfErr, codes, map, option_map, string_bytes};
ghost use Rattle.clap.specs.Matches.{found_of};
ghost use Rattle.clap.specs.Walk.{first_of, rows_of};
ghost use Rattle.cast_machine.specs.declared.data.Settings.{Settings};
ghost use Rattle.command_words.specs.CommandLine.{GiveFile, IsCommandLine, IsUsage};
ghost use Rattle.command_words.specs.computed.Texts.{IsNumberText, AreSettingsIn, IsSeedIn, IsFileIn, AreTasksIn};

use crate::command::Command;
use crate::fault::WordsFault;
use crate::number::number_in;
use crate::parser::{LAST, file_parser, matches_in, run_parser, step_parser};
use cast_machine::Settings;
use clap::ArgMatches;
use std::alloc::Global;

// The text that was found under a name.
fn text_in<'a>(matches: &ArgMatches<'a>, name: &str) -> Option<&'a str>
    ensures { option_map (λ s. s.now) result ≡ first_of name.now (rows_of (found_of matches.now)) }
{
    matches.get_str(name)
}

// The number that an option's text is, or else the default.
fn number_or(
    alloc: Global,
    text: Option<&str>,
    least: u64,
    most: u64,
    default: u64,
) -> Result<u64, WordsFault>
    requires { default ≤ most }
    ensures number { IfOk result (λ n. IsNumberText (option_map (λ s. s.now) text.entry) least most default n) }
    ensures below { IfOk result (λ n. n ≤ most) }
    ensures usage { IfErr result (λ e. e ≡ WordsFault.Usage → (n : ℕ) →
        IsNumberText (option_map (λ s. s.now) text.entry) least most default n → ⊥) }
{
    match text {
        Some(text) => number_in(alloc, text, least, most),
        None => Ok(default),
    }
}

fn settings_in(alloc: Global, matches: &ArgMatches) -> Result<Settings, WordsFault>
    ensures settings { IfOk result (λ s. AreSettingsIn (rows_of (found_of matches.now)) s) }
    ensures usage { IfErr result (λ e. e ≡ WordsFault.Usage → (s : Settings) → AreSettingsIn (rows_of (found_of matches.now)) s → ⊥) }
{
    let fuel = number_or(
        alloc,
        text_in(matches, "fuel"),
        1,
        1_099_511_627_776,
        10_000_000,
    )?;
    let heap = number_or(alloc, text_in(matches, "heap"), 1, 4_194_304, 262_144)?;
    let print = number_or(alloc, text_in(matches, "print"), 1, 1_048_576, 65_536)?;
    Ok(Settings {
        fuel,
        heap: heap as u32,
        print: print as u32,
    })
}

fn seed_in(alloc: Global, matches: &ArgMatches) -> Result<u64, WordsFault>
    ensures seed { IfOk result (λ n. IsSeedIn (rows_of (found_of matches.now)) n) }
    ensures usage { IfErr result (λ e. e ≡ WordsFault.Usage → (n : ℕ) → IsSeedIn (rows_of (found_of matches.now)) n → ⊥) }
{
    number_or(alloc, text_in(matches, "seed"), 0, u64::MAX, 0)
}

fn file_in(alloc: Global, matches: &ArgMatches) -> Result<String, WordsFault>
    ensures file { IfOk result (λ f. IsFileIn (rows_of (found_of matches.now)) (string_bytes f)) }
    ensures usage { IfErr result (λ e. e ≡ WordsFault.Usage → (f : List ℕ) → IsFileIn (rows_of (found_of matches.now)) f → ⊥) }
{
    match text_in(matches, LAST) {
        Some(name) if !name.is_empty() => Ok(String::from_str(alloc, name)?),
        _ => Err(WordsFault::Usage),
    }
}

fn tasks_in(alloc: Global, matches: &ArgMatches) -> Result<u32, WordsFault>
    ensures tasks { IfOk result (λ n. AreTasksIn (rows_of (found_of matches.now)) n) }
    ensures usage { IfErr result (λ e. e ≡ WordsFault.Usage → (n : ℕ) → AreTasksIn (rows_of (found_of matches.now)) n → ⊥) }
{
    match text_in(matches, LAST) {
        Some(text) => Ok(number_in(alloc, text, 1, 200)? as u32),
        None => Err(WordsFault::Usage),
    }
}

// A file alone.
fn read_file(alloc: Global, words: &[String]) -> Result<String, WordsFault>
    ensures file { IfOk result (λ f. GiveFile (map (λ w. string_bytes w) words.now) (string_bytes f)) }
    ensures usage { IfErr result (λ e. e ≡ WordsFault.Usage → (f : List ℕ) →
        GiveFile (map (λ w. string_bytes w) words.now) f → ⊥) }
{
    let matches = matches_in(file_parser(alloc)?, words)?;
    file_in(alloc, &matches)
}

fn read_step(alloc: Global, words: &[String]) -> Result<Command, WordsFault>
    ensures command { IfOk result (IsCommandLine (codes "step" ∷ map (λ w. string_bytes w) words.now)) }
    ensures usage { IfErr result (λ e. e ≡ WordsFault.Usage →
        IsUsage (codes "step" ∷ map (λ w. string_bytes w) words.now)) }
{
    let matches = matches_in(step_parser(alloc)?, words)?;
    let settings = settings_in(alloc, &matches)?;
    let seed = seed_in(alloc, &matches)?;
    let file = file_in(alloc, &matches)?;
    Ok(Command::Step(settings, seed, file))
}

fn read_run(alloc: Global, words: &[String]) -> Result<Command, WordsFault>
    ensures command { IfOk result (IsCommandLine (codes "run" ∷ map (λ w. string_bytes w) words.now)) }
    ensures usage { IfErr result (λ e. e ≡ WordsFault.Usage →
        IsUsage (codes "run" ∷ map (λ w. string_bytes w) words.now)) }
{
    let matches = matches_in(run_parser(alloc)?, words)?;
    let settings = settings_in(alloc, &matches)?;
    let file = file_in(alloc, &matches)?;
    Ok(Command::Run(settings, file))
}

fn read_stress(alloc: Global, words: &[String]) -> Result<Command, WordsFault>
    ensures command { IfOk result (IsCommandLine (codes "stress" ∷ map (λ w. string_bytes w) words.now)) }
    ensures usage { IfErr result (λ e. e ≡ WordsFault.Usage →
        IsUsage (codes "stress" ∷ map (λ w. string_bytes w) words.now)) }
{
    let matches = matches_in(step_parser(alloc)?, words)?;
    let settings = settings_in(alloc, &matches)?;
    let seed = seed_in(alloc, &matches)?;
    let tasks = tasks_in(alloc, &matches)?;
    Ok(Command::Stress(settings, seed, tasks))
}

fn read_command(alloc: Global, word: &str, words: &[String]) -> Result<Command, WordsFault>
    ensures command { IfOk result (IsCommandLine (word.now ∷ map (λ w. string_bytes w) words.now)) }
    ensures usage { IfErr result (λ e. e ≡ WordsFault.Usage →
        IsUsage (word.now ∷ map (λ w. string_bytes w) words.now)) }
{
    match word {
        "check" => Ok(Command::Check(read_file(alloc, words)?)),
        "show" => Ok(Command::Show(read_file(alloc, words)?)),
        "casts" => Ok(Command::Casts(read_file(alloc, words)?)),
        "types" => Ok(Command::Types(read_file(alloc, words)?)),
        "step" => read_step(alloc, words),
        "run" => read_run(alloc, words),
        "stress" => read_stress(alloc, words),
        _ => Err(WordsFault::Usage),
    }
}

/// Reads the words after the program's name. `Usage` comes exactly where they are no command line, as for `--help`, `-h` and
/// `--version`, which no command has.
pub fn read_words(alloc: Global, words: &[String]) -> Result<Command, WordsFault>
    ensures command { IfOk result (IsCommandLine (map (λ w. string_bytes w) words.now)) }
    ensures usage { IfErr result (λ e. e ≡ WordsFault.Usage → IsUsage (map (λ w. string_bytes w) words.now)) }
{
    match words.split_first() {
        Some((word, rest)) => read_command(alloc, word.as_str(), rest),
        None => Err(WordsFault::Usage),
    }
}
