//! Prints the scripts of `cases.txt`, and then prints what was printed. For each case goes out a line: that the first text is the
//! one that the case wants and the second text is the first, or how they differ.
#![tactic(auto)]

mod case;
mod printed;

use case::Case;
use mono_syntax::LoadFault;
use printed::printed;
use std::alloc::{AllocError, Global};
use std::{fs, io};

/// What a script is printed as, where it isn't the text that is wanted.
fn difference(alloc: Global, script: &[u8], wanted: &str) -> Result<Option<String>, AllocError> {
    match printed(alloc, script) {
        Ok(text) => {
            if text.as_str() == wanted {
                Ok(None)
            } else {
                Ok(Some(format!(in alloc; "{text:?}")?))
            }
        }
        Err(LoadFault::Refused(_)) => Ok(Some(String::from_str(alloc, "refused")?)),
        Err(LoadFault::Memory) => Err(AllocError),
    }
}

/// How a case comes out: its script is printed, and then the text that is wanted.
fn outcome(alloc: Global, case: &Case) -> Result<String, AllocError> {
    let wanted = case.text.as_str();
    if !case.is_read {
        return String::from_str(alloc, "not a case");
    }
    if let Some(other) = difference(alloc, case.script.as_slice(), wanted)? {
        return Ok(other);
    }
    match difference(alloc, wanted.as_bytes(), wanted)? {
        Some(other) => format!(in alloc; "again {other}"),
        None => String::from_str(alloc, "ok"),
    }
}

fn report(rt: &HostRuntime, case: Case) -> io::Result<()> {
    let outcome = outcome(rt.alloc(), &case)?;
    let name = case.name.as_str();
    println!(rt; "{name}: {outcome}")
}

fn main(rt: HostRuntime) -> io::Result<()> {
    let text = fs::read_to_string(&rt, "cases.txt")?;
    let mut now: Option<Case> = None;
    for line in text.as_str().lines() {
        let Some((key, value)) = line.split_once('|') else {
            continue;
        };
        if key == "case" {
            if let Some(case) = now.take() {
                report(&rt, case)?;
            }
            now = Some(Case::new(rt.alloc(), value)?);
        } else if let Some(case) = &mut now {
            case.set(key, value)?;
        }
    }
    match now {
        Some(case) => report(&rt, case),
        None => Ok(()),
    }
}
