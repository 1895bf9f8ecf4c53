ghost use Rattle.std.specs.Prelude.{◌≡◌, IfOk};
ghost use Rattle.spelled_tokens.specs.Spelling.{text_behind, spelling, inside};
ghost use Rattle.spelled_tokens.specs.SpelledTokens.{name_what, number_what, text_what, reserved_what, operator_what, what_when, spell};

use crate::cutting::{inside, spelling};
use crate::words::{sign_what, word_what};
use mono_syntax::{Name, Op, Place};
use py_chars::{StringFault, number_value, string_value};
use py_lexer::{Token, TokenKind};
use std::alloc::{AllocError, Global};

/// A word, operator or layout token that no expression has.
#[derive(Clone, Copy, Debug, PartialEq, Eq)]
pub enum Mark {
    Int,
    Bool,
    Str,
    Dyn,
    Callable,
    OpenSquare,
    CloseSquare,
    Equals,
    Colon,
    Arrow,
    Class,
    Def,
    Pass,
    Return,
    Print,
    Start,
    If,
    Elif,
    Else,
    While,
    Newline,
    Indent,
    Dedent,
    End,
    /// A reserved word that stands in no form.
    Unused,
}

/// What a token is in the grammar.
#[derive(Drop)]
pub enum What {
    Name(Name),
    /// The value of a number.
    Number(u64),
    /// The value of a string.
    Text(Name),
    Bool(bool),
    Nil,
    Or,
    And,
    Not,
    /// An operator with two parts; the minus may also stand in front of one.
    Operator(Op),
    Dot,
    Open,
    Close,
    Comma,
    Cast,
    Join,
    Mark(Mark),
}

/// A token with what it spells.
#[derive(Drop)]
pub struct Spelled {
    pub what: What,
    pub place: Place,
}

fn name_what(alloc: Global, text: Option<&str>) -> Result<What, AllocError>
    ensures { IfOk result (λ what. what ≡ name_what (text_behind text.entry)) }
{
    let Some(text) = text else {
        return Ok(What::Mark(Mark::Unused));
    };
    let name = Name::new(alloc, text.as_bytes())?;
    Ok(What::Name(name))
}

fn number_what(text: Option<&str>) -> What
    ensures { result ≡ number_what (text_behind text.entry) }
{
    let Some(text) = text else {
        return What::Mark(Mark::Unused);
    };
    match number_value(text) {
        Some(number) => What::Number(number),
        None => What::Mark(Mark::Unused),
    }
}

fn text_what(alloc: Global, inside: Option<&str>) -> Result<What, AllocError>
    ensures { IfOk result (λ what. what ≡ text_what (text_behind inside.entry)) }
{
    let Some(inside) = inside else {
        return Ok(What::Mark(Mark::Unused));
    };
    match string_value(alloc, inside) {
        Ok(value) => {
            let text = Name::new(alloc, value.as_bytes())?;
            Ok(What::Text(text))
        }
        Err(StringFault::BadEscape(_)) => Ok(What::Mark(Mark::Unused)),
        Err(StringFault::Memory) => Err(AllocError),
    }
}

fn reserved_what(text: Option<&str>) -> What
    ensures { result ≡ reserved_what (text_behind text.entry) }
{
    match text {
        Some(word) => word_what(word),
        None => What::Mark(Mark::Unused),
    }
}

fn operator_what(text: Option<&str>) -> What
    ensures { result ≡ operator_what (text_behind text.entry) }
{
    match text {
        Some(sign) => sign_what(sign),
        None => What::Mark(Mark::Unused),
    }
}

fn what_of(alloc: Global, text: &str, token: &Token) -> Result<What, AllocError>
    ensures { IfOk result (λ what. what ≡ what_when token.now.what (spelling text.now token.now) (inside text.now token.now)) }
{
    match token.what {
        TokenKind::Name => name_what(alloc, spelling(text, token)),
        TokenKind::Reserved => Ok(reserved_what(spelling(text, token))),
        TokenKind::Number => Ok(number_what(spelling(text, token))),
        TokenKind::Str => text_what(alloc, inside(text, token)),
        TokenKind::Sign => Ok(operator_what(spelling(text, token))),
        TokenKind::Newline => Ok(What::Mark(Mark::Newline)),
        TokenKind::Indent => Ok(What::Mark(Mark::Indent)),
        TokenKind::Dedent => Ok(What::Mark(Mark::Dedent)),
        TokenKind::End => Ok(What::Mark(Mark::End)),
    }
}

/// A token of a text with what it spells. The text of a name and the value of a string are copied.
pub fn spell(alloc: Global, text: &str, token: &Token) -> Result<Spelled, AllocError>
    ensures { IfOk result (λ s. s ≡ spell text.now token.now) }
{
    let what = what_of(alloc, text, token)?;
    Ok(Spelled {
        what,
        place: token.place,
    })
}
