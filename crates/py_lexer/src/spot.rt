ghost use Rattle.std.specs.Prelude.{◌≡◌, ◌+◌, ◌<◌, ◌≤◌, ℕ, length, take, chars, encode_utf8};
ghost use Rattle.py_lexer.specs.Characters.{place_behind, behind_one, behind};
ghost use Rattle.py_lexer.specs.Bounds.{Fits};

use mono_syntax::Place;
use py_chars::first_char;

/// Where a character stands: the number of bytes before it, and its place.
#[derive(Clone, Copy, Debug, PartialEq, Eq)]
pub struct Spot {
    pub offset: u32,
    pub place: Place,
}

fn place_behind(place: Place, c: char) -> Place
    requires line { place.line < 4294967295 }
    requires column { place.column < 4294967295 }
    ensures { result ≡ place_behind place c }
{
    if c == '\n' {
        Place {
            line: place.line + 1,
            column: 1,
        }
    } else {
        Place {
            line: place.line,
            column: place.column + 1,
        }
    }
}

#[tactic(auto, using(crate::proofs::Spots::room))]
/// The spot behind one more character.
pub fn behind_one(spot: Spot, c: char) -> Spot
    requires { Fits spot (length (encode_utf8 c)) }
    ensures { result ≡ behind_one spot c }
{
    let place = place_behind(spot.place, c);
    Spot {
        offset: spot.offset + c.len_utf8() as u32,
        place,
    }
}

/// The spot behind a text.
pub fn spot_behind(spot: Spot, text: &str) -> Spot
    requires { Fits spot (length text.now) }
    ensures { result ≡ behind spot (chars text.now) }
{
    let mut at = spot;
    let mut rest = text;
    while let Some((c, behind)) = first_char(rest) {
        at = behind_one(at, c);
        rest = behind;
    }
    at
}

/// The spot of the n-th character of a text.
pub fn spot_in(spot: Spot, text: &str, n: usize) -> Spot
    requires { Fits spot (length text.now) }
    ensures { result ≡ behind spot (take n (chars text.now)) }
{
    let mut at = spot;
    let mut rest = text;
    for _i in 0..n {
        match first_char(rest) {
            None => {}
            Some((c, behind)) => {
                at = behind_one(at, c);
                rest = behind;
            }
        }
    }
    at
}
