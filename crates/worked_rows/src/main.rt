//! Runs the top call on the cases of `cases.txt`, over a shelf and sinks in memory. For each case goes out a line: that what
//! was put and the status are what the case wants, or how they differ.
#![tactic(auto)]

mod case;

use case::Case;
use mono_cli::plain_main;
use mono_io::{MemShelf, MemSink};
use std::{fs, io};

/// Runs a case and says whether it came out as wanted.
fn report(rt: &HostRuntime, case: Case) -> io::Result<()> {
    let alloc = rt.alloc();
    let mut files = Vec::new(alloc);
    files.push((case.file, case.script))?;
    let mut shelf = MemShelf::new(files, case.shelf_fails);
    let mut out = MemSink::new(alloc, case.out_fails);
    let mut err = MemSink::new(alloc, case.err_fails);
    let status = plain_main(alloc, case.words.as_slice(), &mut shelf, &mut out, &mut err);
    let name = case.name.as_str();
    if !case.is_read {
        return println!(rt; "{name}: not a case");
    }
    let is_wanted = status == case.status
        && out.bytes() == case.out.as_bytes()
        && err.bytes() == case.err.as_bytes();
    if is_wanted {
        println!(rt; "{name}: ok")
    } else {
        let out = out.bytes();
        let err = err.bytes();
        println!(rt; "{name}: status {status}, out {out:?}, err {err:?}")
    }
}

fn main(rt: HostRuntime) -> io::Result<()> {
    let text = fs::read_to_string(&rt, "cases.txt")?;
    let mut now: Option<Case> = None;
    for line in text.as_str().lines() {
        let Some((key, value)) = line.split_once('|') else {
            continue;
        };
        if key == "case" {
            if let Some(case) = now.take() {
                report(&rt, case)?;
            }
            now = Some(Case::new(rt.alloc(), value)?);
        } else if let Some(case) = &mut now {
            if key == "read" {
                case.script = fs::read(&rt, value)?;
            } else {
                case.set(rt.alloc(), key, value)?;
            }
        }
    }
    match now {
        Some(case) => report(&rt, case),
        None => Ok(()),
    }
}
