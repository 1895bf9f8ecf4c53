ghost use Rattle.std.specs.Prelude.{◌≡◌, ◌+◌, ◌<◌, ◌≤◌, ◌&&◌, ◌||◌, true, false, not, is_some, drop, Some, None, length, chars, OnOk, IfErr, IfSome, MatchOption, ◌∷◌};
ghost use Rattle.py_chars.specs.Spellings.{is_name, number_of, bad_escape};
ghost use Rattle.py_lexer.specs.Bounds.{Fits};
ghost use Rattle.py_lexer.specs.Characters.{is_control};
ghost use Rattle.py_lexer.specs.Faults.{begins_with, is_doubled};
ghost use Rattle.py_lexer.specs.computed.Scanning.{RefusedBy, refusal, refuse_if, first_control, inside_refusal, string_refusal, quote_refusal, own_refusal};
ghost use Rattle.mono_syntax.specs.declared.Reason.TheVariants.{BadNumber};

use crate::piece::Kind;
use crate::spot::{Spot, behind_one, spot_in};
use crate::text::starts_with;
use mono_syntax::{LoadFault, Reason, Refusal};
use py_chars::{bad_escape, first_char, name_ok, number_value};
use std::alloc::Global;

pub fn refusal(reason: Reason, spot: Spot) -> Refusal
    ensures { result ≡ refusal reason spot }
{
    Refusal {
        place: spot.place,
        reason,
    }
}

/// The answer that a refusal gives, if there is one.
pub fn answer(found: Option<Refusal>) -> Result<(), LoadFault>
    ensures ok { OnOk result (found ≡ None) }
    ensures refused { IfErr result (RefusedBy found) }
{
    match found {
        None => Ok(()),
        Some(refusal) => Err(LoadFault::Refused(refusal)),
    }
}

fn is_control(c: char) -> bool
    ensures { result ≡ is_control c }
{
    c < ' ' && c != '\t'
}

/// The refusal at the first control character of a text.
pub fn first_control(spot: Spot, text: &str) -> Option<Refusal>
    requires { Fits spot (length text.now) }
    ensures { result ≡ first_control spot (chars text.now) }
{
    let mut at = spot;
    let mut rest = text;
    while let Some((c, behind)) = first_char(rest) {
        if is_control(c) {
            return Some(refusal(Reason::BadChar, at));
        }
        at = behind_one(at, c);
        rest = behind;
    }
    None
}

#[tactic(auto, unfolding(py_chars::specs::Spellings::bad_escape))]
fn inside_refusal(spot: Spot, literal: &str) -> Option<Refusal>
    requires { Fits spot (length literal.now) }
    ensures { result ≡ inside_refusal spot (chars literal.now) }
{
    match first_char(literal) {
        None => None,
        Some((_, inside)) => match bad_escape(inside) {
            None => None,
            Some(n) => Some(refusal(Reason::BadString, spot_in(spot, literal, n + 1))),
        },
    }
}

/// Whether an empty literal is directly followed by its quote.
fn is_doubled(literal: &str, behind: &str) -> bool
    ensures { result ≡ is_doubled (chars literal.now) (chars behind.now) }
{
    let Some((quote, rest)) = first_char(literal) else {
        return false;
    };
    let Some((_, further)) = first_char(rest) else {
        return false;
    };
    match first_char(further) {
        None => starts_with(quote, behind),
        Some(_) => false,
    }
}

fn string_refusal(closed: bool, spot: Spot, string: &str, behind: &str) -> Option<Refusal>
    requires { Fits spot (length string.now) }
    ensures { result ≡ string_refusal closed spot (chars string.now) (chars behind.now) }
{
    if closed && is_doubled(string, behind) {
        return Some(refusal(Reason::BadString, spot));
    }
    match first_control(spot, string) {
        Some(found) => Some(found),
        None => {
            if closed {
                inside_refusal(spot, string)
            } else {
                Some(refusal(Reason::BadString, spot))
            }
        }
    }
}

fn quote_refusal(
    closed: bool,
    joined: bool,
    spot: Spot,
    string: &str,
    behind: &str,
) -> Option<Refusal>
    requires { Fits spot (length string.now) }
    ensures { result ≡ quote_refusal closed joined spot (chars string.now) (chars behind.now) }
{
    if joined {
        Some(refusal(Reason::BadString, spot))
    } else {
        string_refusal(closed, spot, string, behind)
    }
}

fn number_refusal(spot: Spot, number: &str, behind: &str) -> Option<Refusal>
    ensures { result ≡ refuse_if (not (is_some (number_of (chars number.now))) || begins_with 46 (chars behind.now)) BadNumber spot }
{
    match number_value(number) {
        None => Some(refusal(Reason::BadNumber, spot)),
        Some(_) => {
            if starts_with('.', behind) {
                Some(refusal(Reason::BadNumber, spot))
            } else {
                None
            }
        }
    }
}

/// Whether a spelling, with a word directly before it or not, has a fault of its own.
pub fn check_own(
    alloc: Global,
    kind: Kind,
    joined: bool,
    spot: Spot,
    spelling: &str,
    behind: &str,
) -> Result<(), LoadFault>
    requires { Fits spot (length spelling.now) }
    ensures ok { OnOk result (own_refusal kind joined spot (chars spelling.now) (chars behind.now) ≡ None) }
    ensures refused { IfErr result (RefusedBy (own_refusal kind joined spot (chars spelling.now) (chars behind.now))) }
{
    match kind {
        Kind::Comment => answer(first_control(spot, spelling)),
        Kind::Word => {
            if name_ok(alloc, spelling)? {
                Ok(())
            } else {
                Err(LoadFault::Refused(refusal(Reason::BadName, spot)))
            }
        }
        Kind::Number => answer(number_refusal(spot, spelling, behind)),
        Kind::Text => answer(quote_refusal(true, joined, spot, spelling, behind)),
        Kind::Unclosed => answer(quote_refusal(false, joined, spot, spelling, behind)),
        Kind::Stray => Err(LoadFault::Refused(refusal(Reason::BadChar, spot))),
        Kind::Blank | Kind::LineEnd | Kind::Sign => Ok(()),
    }
}
