ghost use Rattle.std.specs.Prelude.{◌≤◌, length, chars};
ghost use Rattle.mono_syntax.specs.Limits.{most_bytes};
ghost use Rattle.py_lexer.specs.Lexes.{Lexes};

use mono_syntax::{LoadFault, MOST_BYTES, Place, Reason, Refusal};
use parse_script::parse;
use py_lexer::{Token, decode, lex};
use std::alloc::Global;
use tree_print::print_script;

const TOO_LONG: Refusal = Refusal {
    place: Place { line: 1, column: 1 },
    reason: Reason::TooLong,
};

fn printed_tokens(alloc: Global, tokens: &[Token], text: &str) -> Result<String, LoadFault>
    requires { Lexes (chars text.now) tokens.now }
{
    let script = parse(alloc, tokens, text)?;
    let printed = print_script(alloc, &script)?;
    Ok(printed)
}

fn printed_text(alloc: Global, text: &str) -> Result<String, LoadFault>
    requires { length text.now ≤ most_bytes }
{
    let tokens = lex(alloc, text)?;
    printed_tokens(alloc, tokens.as_slice(), text)
}

/// The text of a script, or why there is none.
pub fn printed(alloc: Global, bytes: &[u8]) -> Result<String, LoadFault> {
    if bytes.len() > MOST_BYTES {
        return Err(LoadFault::Refused(TOO_LONG));
    }
    match decode(bytes) {
        Ok(text) => printed_text(alloc, text),
        Err(refusal) => Err(LoadFault::Refused(refusal)),
    }
}
