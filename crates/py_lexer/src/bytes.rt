ghost use Rattle.std.specs.Prelude.{◌≡◌, ◌≤◌, length, chars, MatchResult};
ghost use Rattle.std.specs.Str.{IsUtf8};
ghost use Rattle.mono_syntax.specs.Limits.{most_bytes};
ghost use Rattle.py_lexer.specs.Lexes.{end_of, RefusesBytes};

use crate::lexer::start;
use crate::spot::spot_behind;
use mono_syntax::{Place, Reason, Refusal};
use std::str::from_utf8;

/// The place behind a text.
fn end_place(text: &str) -> Place
    requires { length text.now ≤ most_bytes }
    ensures { result ≡ (end_of (chars text.now)).place }
{
    let (spot, unmarked) = start(text);
    spot_behind(spot, unmarked).place
}

/// The text of some bytes, or the refusal at the first byte that begins no UTF-8 sequence.
pub fn decode(bytes: &[u8]) -> Result<&str, Refusal>
    requires { length bytes.now ≤ most_bytes }
    ensures { MatchResult result (λ text. (text.now ≡ bytes.now) × IsUtf8 bytes.now) (RefusesBytes bytes.now) }
{
    match from_utf8(bytes) {
        Ok(text) => Ok(text),
        Err(error) => match from_utf8(&bytes[..error.valid_up_to()]) {
            Ok(front) => Err(Refusal {
                place: end_place(front),
                reason: Reason::BadChar,
            }),
            Err(_) => unreachable!(),
        },
    }
}
