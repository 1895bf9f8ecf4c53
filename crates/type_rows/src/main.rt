//! Types the scripts of `cases.txt`. For each case goes out a line: that its expressions have the types that the case wants, or
//! that it is refused as the case wants, or what came instead.
#![tactic(auto)]

mod case;
mod typed;

use case::Case;
use std::alloc::{AllocError, Global};
use std::{fs, io};
use typed::outcome;

fn verdict(alloc: Global, case: &Case) -> Result<String, AllocError> {
    if !case.is_read {
        return String::from_str(alloc, "not a case");
    }
    let came = outcome(alloc, case.script.as_str())?;
    if came.as_str() == case.want.as_str() {
        String::from_str(alloc, "ok")
    } else {
        format!(in alloc; "{came:?}")
    }
}

fn report(rt: &HostRuntime, case: Case) -> io::Result<()> {
    let verdict = verdict(rt.alloc(), &case)?;
    let name = case.name.as_str();
    println!(rt; "{name}: {verdict}")
}

fn main(rt: HostRuntime) -> io::Result<()> {
    let text = fs::read_to_string(&rt, "cases.txt")?;
    let mut now: Option<Case> = None;
    for line in text.as_str().lines() {
        let Some((key, value)) = line.split_once('|') else {
            continue;
        };
        if key == "case" {
            if let Some(case) = now.take() {
                report(&rt, case)?;
            }
            now = Some(Case::new(rt.alloc(), value)?);
        } else if let Some(case) = &mut now {
            case.set(key, value)?;
        }
    }
    match now {
        Some(case) => report(&rt, case),
        None => Ok(()),
    }
}
