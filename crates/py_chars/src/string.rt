ghost use Rattle.std.specs.Prelude.{◌≡◌, ℕ, ◌<◌, ◌∷◌, length, IfSome, chars, true, false, Some, None, Err, IfOk, MatchOption, string_bytes, encode_utf8_all};
ghost use Rattle.py_chars.specs.Spellings.{plain, escape, items_of, is_escape, escaped, string_of, bad_escape};

use crate::text::first_char;
use std::alloc::{AllocError, Global};
use thiserror::Error;

/// Why a string has no value: a backslash that begins no escape, with the number of characters before it, or no memory.
#[derive(Debug, Drop, Error)]
pub enum StringFault {
    #[error("bad escape behind {0} characters")]
    BadEscape(usize),
    #[error("out of memory")]
    Memory,
}

impl From<AllocError> for StringFault {
    ghost use Rattle.std.specs.Prelude.{◌≡◌};
    ghost use Rattle.py_chars.specs.declared.string.StringFault.TheVariants.{Memory};

    ghost from_gives = { λ _ e. e ≡ Memory };

    fn from(_error: AllocError) -> StringFault {
        StringFault::Memory
    }
}

/// What a character behind a backslash stands for, where it means something.
fn escaped(c: char) -> Option<char>
    ensures { MatchOption result (is_escape c ≡ false) (λ meant. (is_escape c ≡ true) × (meant ≡ escaped c)) }
{
    match c {
        'n' => Some('\n'),
        't' => Some('\t'),
        '\\' | '\'' | '"' => Some(c),
        _ => None,
    }
}

/// The character behind a backslash, and what stands behind it. A lone backslash at the end is no escape.
#[tactic(auto, using(crate::proofs::Items::plain_item, crate::proofs::Items::last_item, crate::proofs::Items::escape_item))]
fn escape_at(c: char, behind: &str) -> Option<(char, &str)>
    ensures item { MatchOption result (items_of (c ∷ chars behind.now) ≡ plain c ∷ items_of (chars behind.now)) (λ r. items_of (c ∷ chars behind.now) ≡ escape r.0 ∷ items_of (chars r.1.now)) }
    ensures shorter { IfSome result (λ r. length r.1.now < length behind.now) }
{
    if c != '\\' {
        return None;
    }
    match first_char(behind) {
        None => None,
        Some((d, further)) => Some((d, further)),
    }
}

#[tactic(auto, unfolding(crate::specs::Spellings::bad_escape))]
/// How many characters stand before the first backslash that means nothing.
pub fn bad_escape(text: &str) -> Option<usize>
    ensures value { result ≡ bad_escape (chars text.now) }
    ensures within { IfSome result (λ n. n < length text.now) }
{
    let mut rest = text;
    let mut at = 0;
    while let Some((c, behind)) = first_char(rest) {
        match escape_at(c, behind) {
            None => {
                at += 1;
                rest = behind;
            }
            Some((d, further)) => {
                if escaped(d).is_none() {
                    return Some(at);
                }
                at += 2;
                rest = further;
            }
        }
    }
    None
}

/// The value of a string with this inside, each escape replaced by what it stands for. A lone backslash at the end, which
/// no closed literal has, stands for itself.
pub fn string_value(alloc: Global, text: &str) -> Result<String, StringFault>
    ensures value { IfOk result (λ value. (bad_escape (chars text.now) ≡ None) × (string_bytes value ≡ encode_utf8_all (string_of (chars text.now)))) }
    ensures bad { (n : ℕ) → result ≡ Err (StringFault.BadEscape n) → bad_escape (chars text.now) ≡ Some n }
{
    let mut value = String::new(alloc);
    let mut rest = text;
    let mut at = 0;
    while let Some((c, behind)) = first_char(rest) {
        match escape_at(c, behind) {
            None => {
                value.push(c)?;
                at += 1;
                rest = behind;
            }
            Some((d, further)) => {
                let Some(meant) = escaped(d) else {
                    return Err(StringFault::BadEscape(at));
                };
                value.push(meant)?;
                at += 2;
                rest = further;
            }
        }
    }
    Ok(value)
}
