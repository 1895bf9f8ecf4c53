//! A table of texts for the lexer. A text comes in a line, with escapes for the bytes that a line can't hold, and its
//! tokens or its refusal go out on one line.
#![tactic(auto)]

mod escape;
mod show;

use escape::unescaped;
use show::answer;
use std::io;

fn main(rt: HostRuntime) -> io::Result<()> {
    for line in rt.lines(rt.alloc()) {
        let bytes = unescaped(rt.alloc(), line?.as_bytes())?;
        let text = answer(rt.alloc(), bytes.as_slice())?;
        println!(rt; "{text}")?;
    }
    Ok(())
}
