ghost use Rattle.std.specs.Prelude.{◌≤◌, ◌^◌, IfSome};

use cast_calculus::Settings;
use std::alloc::{AllocError, Global};

const MOST_FUEL: u64 = 1_099_511_627_776;

const MOST_HEAP: u64 = 4_194_304;

const MOST_PRINT: u64 = 1_048_576;

/// A field of the object at an address, and what it is to hold: its recorded type and its value.
#[derive(Drop)]
pub struct Wanted {
    pub base: u32,
    pub field: String,
    pub holds: String,
}

/// A row of seeds, from the first to the last.
#[derive(Clone, Copy)]
pub struct Seeds {
    pub first: u64,
    pub last: u64,
}

/// A case: a script, the limits of its run, the fields that it leaves, and its end. Where it has seeds, the script is run by each of
/// them instead, and `prints` is what each run prints, with ` / ` between two lines.
#[derive(Drop)]
pub struct Case {
    pub name: String,
    pub script: String,
    pub fuel: u64,
    pub heap: u64,
    pub print: u64,
    pub cells: Vec<Wanted>,
    pub end: String,
    pub seeds: Option<Seeds>,
    pub prints: String,
    /// Each of its lines could be read.
    pub is_read: bool,
}

impl Case {
    /// A case of this name, with an empty script that is to end well.
    pub fn new(alloc: Global, name: &str) -> Result<Case, AllocError> {
        Ok(Case {
            name: String::from_str(alloc, name)?,
            script: String::new(alloc),
            fuel: 10_000,
            heap: 1_000,
            print: 1_000,
            cells: Vec::new(alloc),
            end: String::from_str(alloc, "done")?,
            seeds: None,
            prints: String::new(alloc),
            is_read: true,
        })
    }

    /// Takes in a line of the case.
    pub fn set(&mut self, alloc: Global, key: &str, value: &str) -> Result<(), AllocError> {
        match key {
            "script" => self.push_line(value)?,
            "cell" => self.push_cell(alloc, value)?,
            "end" => self.end = String::from_str(alloc, value)?,
            "prints" => self.prints = String::from_str(alloc, value)?,
            "seeds" => self.set_seeds(value),
            _ => self.set_limit(key, value),
        }
        Ok(())
    }

    /// The limits of the run, where each is one that a run may have.
    pub fn settings(&self) -> Option<Settings>
        ensures some { IfSome result (λ s. 1 ≤ s.fuel) }
        ensures most { IfSome result (λ s. s.fuel ≤ 2 ^ 40) }
    {
        if self.fuel < 1 || self.fuel > MOST_FUEL {
            return None;
        }
        if self.heap < 1 || self.heap > MOST_HEAP {
            return None;
        }
        if self.print < 1 || self.print > MOST_PRINT {
            return None;
        }
        Some(Settings {
            fuel: self.fuel,
            heap: self.heap as u32,
            print: self.print as u32,
        })
    }

    /// Takes in a limit.
    fn set_limit(&mut self, key: &str, value: &str) {
        let Ok(number) = value.parse::<u64>() else {
            self.is_read = false;
            return;
        };
        match key {
            "fuel" => self.fuel = number,
            "heap" => self.heap = number,
            "print" => self.print = number,
            _ => self.is_read = false,
        }
    }

    /// Takes in a first and a last seed, with a space between.
    fn set_seeds(&mut self, value: &str) {
        let Some((first, last)) = value.split_once(' ') else {
            self.is_read = false;
            return;
        };
        match (first.parse::<u64>(), last.parse::<u64>()) {
            (Ok(first), Ok(last)) => self.seeds = Some(Seeds { first, last }),
            _ => self.is_read = false,
        }
    }

    fn push_line(&mut self, line: &str) -> Result<(), AllocError> {
        self.script.push_str(line)?;
        self.script.push_str("\n")
    }

    /// Takes in an address, a field's name, and what the field is to hold, with a space between two of them.
    fn push_cell(&mut self, alloc: Global, value: &str) -> Result<(), AllocError> {
        self.is_read = false;
        let Some((base, rest)) = value.split_once(' ') else {
            return Ok(());
        };
        let Some((field, holds)) = rest.split_once(' ') else {
            return Ok(());
        };
        let Ok(base) = base.parse::<u32>() else {
            return Ok(());
        };
        self.is_read = true;
        self.cells.push(Wanted {
            base,
            field: String::from_str(alloc, field)?,
            holds: String::from_str(alloc, holds)?,
        })?;
        Ok(())
    }
}
