//! The program: the words after its name go to the top call, with the system's files and the two streams of output, and it
//! ends with the status that comes back.
#![tactic(auto)]

use mono_cli::plain_main;
use mono_io::{FileShelf, StdSink};
use std::alloc::AllocError;
use std::process::ExitCode;
use std::{env, io};

/// The status where there is no memory.
const NO_MEMORY: u8 = 8;

/// The words after the program's name; none where one of them isn't UTF-8, since that is no command either.
fn words(rt: &HostRuntime) -> Result<Vec<String>, AllocError> {
    let mut words = Vec::new(rt.alloc());
    match env::args(rt) {
        Ok(args) => {
            for word in args.skip(1) {
                words.push(word)?;
            }
            Ok(words)
        }
        Err(error) if error.kind() == io::ErrorKind::InvalidData => Ok(words),
        Err(_) => Err(AllocError),
    }
}

fn main(rt: HostRuntime) -> io::Result<ExitCode> {
    let Ok(words) = words(&rt) else {
        return Ok(ExitCode::from(NO_MEMORY));
    };
    let alloc = rt.alloc();
    let mut shelf = FileShelf::new(&rt);
    let mut out = StdSink::new(rt.stdout());
    let mut err = StdSink::new(rt.stderr());
    let status = plain_main(alloc, words.as_slice(), &mut shelf, &mut out, &mut err);
    Ok(ExitCode::from(status))
}
