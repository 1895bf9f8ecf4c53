use mono_syntax::{LoadFault, MOST_BYTES, Reason, Refusal};
use py_lexer::{Token, TokenKind, decode, lex};
use std::alloc::{AllocError, Global};

/// The tokens of the bytes, or their refusal.
pub fn answer(alloc: Global, bytes: &[u8]) -> Result<String, AllocError> {
    if bytes.len() > MOST_BYTES {
        return String::from_str(alloc, "too long");
    }
    match decode(bytes) {
        Err(refusal) => refused(alloc, refusal),
        Ok(text) => match lex(alloc, text) {
            Ok(tokens) => shown(alloc, tokens.as_slice()),
            Err(LoadFault::Refused(refusal)) => refused(alloc, refusal),
            Err(LoadFault::Memory) => Err(AllocError),
        },
    }
}

fn reason(reason: Reason) -> &'static str {
    match reason {
        Reason::BadChar => "bad character",
        Reason::Tab => "tab in indentation",
        Reason::BadDedent => "bad dedent",
        Reason::OpenBracket => "open bracket",
        Reason::BadName => "bad name",
        Reason::BadNumber => "bad number",
        Reason::BadString => "bad string",
        _ => "another reason",
    }
}

fn refused(alloc: Global, refusal: Refusal) -> Result<String, AllocError> {
    let line = refusal.place.line;
    let column = refusal.place.column;
    let why = reason(refusal.reason);
    format!(in alloc; "refused {line}:{column}: {why}")
}

fn kind_name(what: TokenKind) -> &'static str {
    match what {
        TokenKind::Name => "name",
        TokenKind::Reserved => "reserved",
        TokenKind::Number => "number",
        TokenKind::Str => "string",
        TokenKind::Sign => "sign",
        TokenKind::Newline => "newline",
        TokenKind::Indent => "indent",
        TokenKind::Dedent => "dedent",
        TokenKind::End => "end",
    }
}

/// Each token as its kind, its slice and its place.
fn shown(alloc: Global, tokens: &[Token]) -> Result<String, AllocError> {
    let mut text = String::new(alloc);
    for token in tokens {
        let kind = kind_name(token.what);
        let from = token.from;
        let to = token.to;
        let line = token.place.line;
        let column = token.place.column;
        let one = format!(in alloc; "{kind}:{from}-{to}@{line}:{column}")?;
        if !text.is_empty() {
            text.push(' ')?;
        }
        text.push_str(one.as_str())?;
    }
    Ok(text)
}
