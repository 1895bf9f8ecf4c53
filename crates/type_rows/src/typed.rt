ghost use Rattle.std.specs.Prelude.{◌≤◌, length, chars};
ghost use Rattle.py_lexer.specs.Lexes.{Lexes};
ghost use Rattle.mono_syntax.specs.Limits.{most_bytes};

use consistency::check;
use mono_list::Shared;
use mono_syntax::{LoadFault, Place, Reason, Refusal, Script, Ty, TyAt, Typed};
use mono_tree::type_bytes;
use name_scope::scope;
use parse_script::parse;
use py_lexer::{Token, lex};
use std::alloc::{AllocError, Global};

const LONGEST: usize = 1_048_576;

const TOO_LONG: Refusal = Refusal {
    place: Place { line: 1, column: 1 },
    reason: Reason::TooLong,
};

fn typed_script(alloc: Global, script: &Script) -> Result<Typed, LoadFault> {
    let scoped = Shared::new(alloc, scope(alloc, script)?)?;
    check(alloc, &scoped)
}

fn typed_tokens(alloc: Global, tokens: &[Token], text: &str) -> Result<Typed, LoadFault>
    requires length { length text.now ≤ most_bytes }
    requires lexed { Lexes (chars text.now) tokens.now }
{
    let script = parse(alloc, tokens, text)?;
    typed_script(alloc, &script)
}

fn typed(alloc: Global, text: &str) -> Result<Typed, LoadFault> {
    if text.len() > LONGEST {
        return Err(LoadFault::Refused(TOO_LONG));
    }
    let tokens = lex(alloc, text)?;
    typed_tokens(alloc, tokens.as_slice(), text)
}

/// The text of some bytes, which are one wherever the names in a script are.
fn text_of(alloc: Global, bytes: &[u8]) -> Result<String, AllocError> {
    match std::str::from_utf8(bytes) {
        Ok(text) => String::from_str(alloc, text),
        Err(_) => String::from_str(alloc, "no text"),
    }
}

/// The type at a position.
fn type_at(alloc: Global, types: &[Shared<Ty>], at: TyAt) -> Result<String, AllocError> {
    let Some(ty) = types.get(at.0 as usize) else {
        return String::from_str(alloc, "no type");
    };
    let text = type_bytes(alloc, ty.get())?;
    text_of(alloc, text.as_slice())
}

/// The type of each expression, a line for each.
fn type_lines(alloc: Global, typed: &Typed) -> Result<String, AllocError> {
    let mut lines = String::new(alloc);
    for at in typed.exprs.as_slice() {
        let line = type_at(alloc, typed.types.as_slice(), *at)?;
        lines.push_str(line.as_str())?;
        lines.push_str("\n")?;
    }
    Ok(lines)
}

/// What the typing of a script gives: the type of each expression, or the place and the reason of its first fault.
pub fn outcome(alloc: Global, text: &str) -> Result<String, AllocError> {
    match typed(alloc, text) {
        Ok(typed) => type_lines(alloc, &typed),
        Err(LoadFault::Refused(refusal)) => {
            let Place { line, column } = refusal.place;
            format!(in alloc; "{line}:{column} {:?}\n", refusal.reason)
        }
        Err(LoadFault::Memory) => Err(AllocError),
    }
}
