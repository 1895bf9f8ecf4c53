ghost use Rattle.std.specs.Prelude.{◌≡◌, ◌==◌, Some, None, chars, MatchOption, is_some, false};
ghost use Rattle.std.specs.Char.{is_ascii_digit};
ghost use Rattle.unicode_ident.specs.Ident.{is_xid_continue};
ghost use Rattle.py_chars.specs.Spellings.{starts_name};
ghost use Rattle.py_lexer.specs.Characters.{is_blank, is_quote, ends_line};
ghost use Rattle.py_lexer.specs.Pieces.{is_short_sign, is_long_sign};
ghost use Rattle.py_lexer.specs.computed.Reading.{skip, skip_line, at_close, behind_end, string_at, sign_at, front};

use py_chars::{first_char, starts_name};
use unicode_ident::is_xid_continue;

/// What a piece of a text is. A string that isn't closed on its line is `Unclosed`, and a character that begins nothing
/// is `Stray`.
#[derive(Clone, Copy, Debug, PartialEq, Eq)]
pub enum Kind {
    Blank,
    Comment,
    LineEnd,
    Word,
    Number,
    Text,
    Unclosed,
    Sign,
    Stray,
}

fn is_blank(c: char) -> bool
    ensures { result ≡ is_blank c }
{
    c == ' ' || c == '\t'
}

fn is_quote(c: char) -> bool
    ensures { result ≡ is_quote c }
{
    c == '"' || c == '\''
}

fn is_short_sign(c: char) -> bool
    ensures { result ≡ is_short_sign c }
{
    matches!(
        c,
        '(' | ')' | '[' | ']' | ',' | ':' | '.' | '=' | '+' | '-' | '*' | '%' | '<' | '>'
    )
}

fn is_long_sign(c: char, d: char) -> bool
    ensures { result ≡ is_long_sign c d }
{
    match c {
        '-' => d == '>',
        '/' => d == '/',
        '=' | '!' | '<' | '>' => d == '=',
        _ => false,
    }
}

/// Whether a line ends at the start of the text.
fn ends_line(text: &str) -> bool
    ensures { result ≡ ends_line (chars text.now) }
{
    let Some((c, behind)) = first_char(text) else {
        return true;
    };
    match first_char(behind) {
        None => c == '\n',
        Some((d, _)) => c == '\n' || (c == '\r' && d == '\n'),
    }
}

fn skip_blanks(text: &str) -> &str
    ensures { chars result.now ≡ skip is_blank (chars text.now) }
{
    let mut rest = text;
    while let Some((c, behind)) = first_char(rest) {
        if !is_blank(c) {
            return rest;
        }
        rest = behind;
    }
    rest
}

fn skip_continues(text: &str) -> &str
    ensures { chars result.now ≡ skip is_xid_continue (chars text.now) }
{
    let mut rest = text;
    while let Some((c, behind)) = first_char(rest) {
        if !is_xid_continue(c) {
            return rest;
        }
        rest = behind;
    }
    rest
}

/// What stands from the end of the text's first line on.
fn skip_line(text: &str) -> &str
    ensures { chars result.now ≡ skip_line (chars text.now) }
{
    let mut rest = text;
    while let Some((_, behind)) = first_char(rest) {
        if ends_line(rest) {
            return rest;
        }
        rest = behind;
    }
    rest
}

/// What stands behind the closing quote of a literal, where it is closed on its line.
fn behind_close(quote: char, text: &str) -> Option<&str>
    ensures { MatchOption result (at_close false quote (chars text.now) ≡ None) (λ r. at_close false quote (chars text.now) ≡ Some (chars r.now)) }
{
    let mut rest = text;
    let mut escaped = false;
    while let Some((c, behind)) = first_char(rest) {
        if ends_line(rest) {
            return None;
        }
        if !escaped && c == quote {
            return Some(behind);
        }
        escaped = !escaped && c == '\\';
        rest = behind;
    }
    None
}

/// The string that begins the text with this quote, of which `behind` is the rest.
fn string_front<'a>(quote: char, text: &'a str, behind: &'a str) -> (Kind, &'a str)
    ensures kind { result.0 ≡ (string_at quote (chars text.now) (chars behind.now)).0 }
    ensures behind { chars result.1.now ≡ (string_at quote (chars text.now) (chars behind.now)).1 }
{
    match behind_close(quote, behind) {
        None => (Kind::Unclosed, skip_line(text)),
        Some(further) => (Kind::Text, further),
    }
}

/// The operator that begins the text with c, of which `behind` is the rest; or a stray character.
fn sign_front<'a>(c: char, behind: &'a str) -> (Kind, &'a str)
    ensures kind { result.0 ≡ (sign_at c (chars behind.now)).0 }
    ensures behind { chars result.1.now ≡ (sign_at c (chars behind.now)).1 }
{
    let short = if is_short_sign(c) {
        Kind::Sign
    } else {
        Kind::Stray
    };
    match first_char(behind) {
        None => (short, behind),
        Some((d, further)) => {
            if is_long_sign(c, d) {
                (Kind::Sign, further)
            } else {
                (short, behind)
            }
        }
    }
}

/// What stands behind the line end that begins the text with c, of which `behind` is the rest.
fn end_front(c: char, behind: &str) -> &str
    ensures { chars result.now ≡ behind_end c (chars behind.now) }
{
    if c == '\n' {
        return behind;
    }
    match first_char(behind) {
        None => behind,
        Some((_, further)) => further,
    }
}

#[tactic(auto, unfolding(crate::specs::computed::Reading::front))]
/// The piece that begins the text, and what stands behind it.
pub fn front(text: &str) -> (Kind, &str)
    ensures kind { result.0 ≡ (front (chars text.now)).0 }
    ensures behind { chars result.1.now ≡ (front (chars text.now)).1 }
{
    let Some((c, behind)) = first_char(text) else {
        return (Kind::Stray, text);
    };
    if is_blank(c) {
        return (Kind::Blank, skip_blanks(behind));
    }
    if c == '#' {
        return (Kind::Comment, skip_line(text));
    }
    if ends_line(text) {
        return (Kind::LineEnd, end_front(c, behind));
    }
    if starts_name(c) {
        return (Kind::Word, skip_continues(behind));
    }
    if c.is_ascii_digit() {
        return (Kind::Number, skip_continues(behind));
    }
    if is_quote(c) {
        return string_front(c, text, behind);
    }
    sign_front(c, behind)
}
