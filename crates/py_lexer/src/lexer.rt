ghost use Rattle.std.specs.Prelude.{◌≡◌, ◌≤◌, ◌⊎◌, List, Ok, length, chars, IfOk, IfErr, MatchResult};
ghost use Rattle.py_lexer.specs.Bounds.{Fits};
ghost use Rattle.py_lexer.specs.Characters.{start_of, unmarked};
ghost use Rattle.py_lexer.specs.Lexes.{Lexes, FirstLexFault, RefusesText};
ghost use Rattle.py_lexer.specs.computed.Scans.{Scans, RefusedScan};
ghost use Rattle.py_lexer.specs.declared.token.Token.{Token};
ghost use Rattle.mono_syntax.specs.Limits.{most_bytes};
ghost use Rattle.mono_syntax.specs.declared.Refusal.{Refusal};
ghost use Rattle.mono_syntax.specs.declared.LoadFault.TheVariants.{Refused, Memory};

use crate::piece::front;
use crate::spot::{Spot, spot_behind};
use crate::state::{State, finish, step};
use crate::text::before;
use crate::token::Token;
use mono_syntax::{LoadFault, Place};
use py_chars::first_char;
use std::alloc::Global;

/// Where a text begins, and what it is, behind a byte order mark.
#[tactic(auto, using(crate::proofs::Spots::mark_bytes))]
pub fn start(text: &str) -> (Spot, &str)
    requires { length text.now ≤ most_bytes }
    ensures spot { result.0 ≡ start_of (chars text.now) }
    ensures rest { chars result.1.now ≡ unmarked (chars text.now) }
    ensures fits { Fits result.0 (length result.1.now) }
{
    let place = Place { line: 1, column: 1 };
    match first_char(text) {
        Some(('\u{feff}', rest)) => (Spot { offset: 3, place }, rest),
        _ => (Spot { offset: 0, place }, text),
    }
}

/// Reads a text piece by piece.
fn scanned(alloc: Global, text: &str) -> Result<Vec<Token>, LoadFault>
    requires { length text.now ≤ most_bytes }
    ensures ok { IfOk result (λ tokens. Scans (chars text.now) (Ok tokens.items)) }
    ensures refused { IfErr result (RefusedScan (chars text.now)) }
{
    let (first, unmarked) = start(text);
    let mut spot = first;
    let mut rest = unmarked;
    let mut state = State::new(alloc);
    let mut tokens = Vec::new(alloc);
    while !rest.is_empty() {
        let (kind, behind) = front(rest);
        let spelling = before(rest, behind);
        state = match step(alloc, state, spot, kind, spelling, behind, &mut tokens) {
            Ok(next) => next,
            Err(fault) => return Err(fault),
        };
        spot = spot_behind(spot, spelling);
        rest = behind;
    }
    match finish(state, spot, &mut tokens) {
        Ok(()) => Ok(tokens),
        Err(fault) => Err(fault),
    }
}

/// The tokens of a text, in order, or the first of its faults. Nothing of the text is copied.
pub fn lex(alloc: Global, text: &str) -> Result<Vec<Token>, LoadFault>
    requires { length text.now ≤ most_bytes }
    ensures tokens { IfOk result (λ tokens. Lexes (chars text.now) tokens.items) }
    ensures refused { IfErr result (RefusesText (chars text.now)) }

    // A text with tokens gives them, and one with a fault gives its refusal, but for want of memory.
    ensures accepts { (ts : List Token) → Lexes (chars text.now) ts → MatchResult result (λ tokens. tokens.items ≡ ts) (λ fault. fault ≡ Memory) }
    ensures refuses { (r : Refusal) → FirstLexFault (chars text.now) r → MatchResult result (λ _. ⊥) (λ fault. (fault ≡ Refused r) ⊎ (fault ≡ Memory)) }
{
    match scanned(alloc, text) {
        Ok(tokens) => Ok(tokens),
        Err(fault) => Err(fault),
    }
}
