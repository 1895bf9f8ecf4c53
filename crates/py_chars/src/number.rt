ghost use Rattle.std.specs.Prelude.{◌≡◌, ◌==◌, ◌||◌, not, length, chars};
ghost use Rattle.std.specs.List.{list_all};
ghost use Rattle.std.specs.Char.{is_ascii_digit};
ghost use Rattle.py_chars.specs.Spellings.{is_numeral, number_of};

use crate::text::first_char;
use mono_syntax::GREATEST_INTEGER;

fn all_digits(text: &str) -> bool
    ensures { result ≡ list_all is_ascii_digit (chars text.now) }
{
    let mut rest = text;
    while let Some((c, behind)) = first_char(rest) {
        if !c.is_ascii_digit() {
            return false;
        }
        rest = behind;
    }
    true
}

/// Whether a first digit may stand before the rest: no `0` leads.
fn may_lead(first: char, behind: &str) -> bool
    ensures { result ≡ (not (first == 48) || length (chars behind.now) == 0) }
{
    match first_char(behind) {
        None => true,
        Some(_) => first != '0',
    }
}

fn is_numeral(text: &str) -> bool
    ensures { result ≡ is_numeral (chars text.now) }
{
    match first_char(text) {
        None => false,
        Some((first, behind)) => {
            first.is_ascii_digit() && all_digits(behind) && may_lead(first, behind)
        }
    }
}

#[tactic(auto, using(crate::proofs::Numbers::read_on, crate::proofs::Numbers::too_great, crate::proofs::Numbers::all_read), unfolding(crate::specs::Spellings::number_of))]
/// The value of a number: `0`, or digits of which the first isn't `0`, worth at most 2^47 - 1.
pub fn number_value(text: &str) -> Option<u64>
    ensures { result ≡ number_of (chars text.now) }
{
    if !is_numeral(text) {
        return None;
    }
    let mut value: u64 = 0;
    let mut rest = text;
    while let Some((c, behind)) = first_char(rest) {
        value = value * 10 + u64::from(c as u32 - '0' as u32);
        if value > GREATEST_INTEGER {
            return None;
        }
        rest = behind;
    }
    Some(value)
}
