//! Counts the tokens of a script. The script comes in, and the number of its tokens goes out, or the place of its refusal.
#![tactic(auto)]

use mono_syntax::{LoadFault, MOST_BYTES, Refusal};
use py_lexer::{decode, lex};
use std::alloc::{AllocError, Global};
use std::io;

fn refused(alloc: Global, refusal: Refusal) -> Result<String, AllocError> {
    let line = refusal.place.line;
    let column = refusal.place.column;
    format!(in alloc; "refused at {line}:{column}")
}

fn answer(alloc: Global, bytes: &[u8]) -> Result<String, AllocError> {
    if bytes.len() > MOST_BYTES {
        return String::from_str(alloc, "too long");
    }
    match decode(bytes) {
        Err(refusal) => refused(alloc, refusal),
        Ok(text) => match lex(alloc, text) {
            Ok(tokens) => {
                let count = tokens.len();
                format!(in alloc; "{count} tokens")
            }
            Err(LoadFault::Refused(refusal)) => refused(alloc, refusal),
            Err(LoadFault::Memory) => Err(AllocError),
        },
    }
}

fn main(rt: HostRuntime) -> io::Result<()> {
    let script = io::read_to_string(rt.alloc(), rt.reader())?;
    let text = answer(rt.alloc(), script.as_bytes())?;
    println!(rt; "{text}")
}
