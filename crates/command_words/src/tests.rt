//! Command lines and what they ask for, by the rule.
use crate::{Command, WordsFault, read_words};
use cast_machine::Settings;
use std::alloc::{AllocError, Global};

// A line's words stand between single spaces, so that two spaces have an empty word between them.
static LINES: [(&str, &str); 87] = [
    ("", "usage"),
    ("check a", "check a"),
    ("show a.py", "show a.py"),
    ("casts a", "casts a"),
    ("types a", "types a"),
    ("check", "usage"),
    ("check ", "usage"),
    ("check a b", "usage"),
    ("check -", "check -"),
    ("check -a", "usage"),
    ("check -- -a", "check -a"),
    ("check -- --", "check --"),
    ("check --", "usage"),
    ("check -- a b", "usage"),
    ("check a --", "check a"),
    ("check -- ", "usage"),
    ("check --help", "usage"),
    ("check -h a", "usage"),
    ("check --seed 1 a", "usage"),
    ("check --fuel=1 a", "usage"),
    ("check help", "check help"),
    ("check --=a", "usage"),
    ("check =", "check ="),
    ("Check a", "usage"),
    ("chec a", "usage"),
    ("checks a", "usage"),
    ("--help", "usage"),
    ("-h", "usage"),
    ("--version", "usage"),
    ("-V", "usage"),
    ("help", "usage"),
    ("-- check a", "usage"),
    ("run a", "run 10000000 262144 65536 a"),
    ("run --fuel 5 a", "run 5 262144 65536 a"),
    ("run --fuel=5 a", "run 5 262144 65536 a"),
    ("run a --fuel 5", "run 5 262144 65536 a"),
    ("run a --fuel=5", "run 5 262144 65536 a"),
    ("run --heap 5 a", "run 10000000 5 65536 a"),
    ("run --print=5 a", "run 10000000 262144 5 a"),
    ("run --print 1 a --heap=2 --fuel 3", "run 3 2 1 a"),
    ("run --fuel 5 --fuel 5 a", "usage"),
    ("run --fuel=5 a --fuel=6", "usage"),
    ("run --seed 1 a", "usage"),
    ("run --fuel 0 a", "usage"),
    ("run --fuel 1 a", "run 1 262144 65536 a"),
    (
        "run --fuel 1099511627776 a",
        "run 1099511627776 262144 65536 a",
    ),
    ("run --fuel 1099511627777 a", "usage"),
    ("run --heap 0 a", "usage"),
    ("run --heap 1 a", "run 10000000 1 65536 a"),
    ("run --heap 4194304 a", "run 10000000 4194304 65536 a"),
    ("run --heap 4194305 a", "usage"),
    ("run --print 0 a", "usage"),
    ("run --print 1 a", "run 10000000 262144 1 a"),
    ("run --print 1048576 a", "run 10000000 262144 1048576 a"),
    ("run --print 1048577 a", "usage"),
    ("run --fuel 01 a", "usage"),
    ("run --fuel +1 a", "usage"),
    ("run --fuel -1 a", "usage"),
    ("run --fuel=-1 a", "usage"),
    ("run --fuel= a", "usage"),
    ("run --fuel  a", "usage"),
    ("run --fuel 1x a", "usage"),
    ("run --fuel a", "usage"),
    ("run a --fuel", "usage"),
    ("run --fuel -- a", "usage"),
    ("run -- --fuel 5", "usage"),
    ("run -- --fuel", "run 10000000 262144 65536 --fuel"),
    ("run --fuel 5 -- -a", "run 5 262144 65536 -a"),
    ("run --fue 5 a", "usage"),
    ("run -fuel 5 a", "usage"),
    ("run --fuel=5", "usage"),
    ("step a", "step 10000000 262144 65536 0 a"),
    ("step --seed 0 a", "step 10000000 262144 65536 0 a"),
    ("step --seed=00 a", "usage"),
    (
        "step --seed=18446744073709551615 a",
        "step 10000000 262144 65536 18446744073709551615 a",
    ),
    ("step --seed 18446744073709551616 a", "usage"),
    (
        "step --seed 7 --fuel 8 --heap 9 --print 10 a",
        "step 8 9 10 7 a",
    ),
    ("step --seed 7 a --seed 7", "usage"),
    ("step a b", "usage"),
    ("step", "usage"),
    ("stress 0", "usage"),
    ("stress 1", "stress 10000000 262144 65536 0 1"),
    ("stress 200", "stress 10000000 262144 65536 0 200"),
    ("stress 201", "usage"),
    ("stress 01", "usage"),
    ("stress --seed 3 -- 2", "stress 10000000 262144 65536 3 2"),
    ("stress a", "usage"),
];

fn settings_text(alloc: Global, s: &Settings) -> Result<String, AllocError> {
    let fuel = s.fuel;
    let heap = s.heap;
    let print = s.print;
    format!(in alloc; "{fuel} {heap} {print}")
}

fn command_text(alloc: Global, command: &Command) -> Result<String, AllocError> {
    match command {
        Command::Check(file) => format!(in alloc; "check {file}"),
        Command::Show(file) => format!(in alloc; "show {file}"),
        Command::Casts(file) => format!(in alloc; "casts {file}"),
        Command::Types(file) => format!(in alloc; "types {file}"),
        Command::Step(settings, seed, file) => {
            let limits = settings_text(alloc, settings)?;
            format!(in alloc; "step {limits} {seed} {file}")
        }
        Command::Run(settings, file) => {
            let limits = settings_text(alloc, settings)?;
            format!(in alloc; "run {limits} {file}")
        }
        Command::Stress(settings, seed, n) => {
            let limits = settings_text(alloc, settings)?;
            format!(in alloc; "stress {limits} {seed} {n}")
        }
    }
}

// What the line's words ask for, as text.
fn asked(alloc: Global, line: &str) -> Result<String, AllocError> {
    let mut words = Vec::new(alloc);
    for word in line.split(' ') {
        words.push(String::from_str(alloc, word)?)?;
    }
    match read_words(alloc, words.as_slice()) {
        Ok(command) => command_text(alloc, &command),
        Err(WordsFault::Usage) => String::from_str(alloc, "usage"),
        Err(WordsFault::Memory) => String::from_str(alloc, "memory"),
    }
}

#[test]
fn lines_by_the_rule(rt: HostRuntime) {
    for (line, wanted) in LINES.iter() {
        let got = asked(rt.alloc(), line).expect(&rt, "memory for the texts");
        assert!(rt; got.as_str() == *wanted);
    }
    let none: Vec<String> = Vec::new(rt.alloc());
    assert!(rt;
        matches!(
            read_words(rt.alloc(), none.as_slice()),
            Err(WordsFault::Usage)
        )
    );
}
