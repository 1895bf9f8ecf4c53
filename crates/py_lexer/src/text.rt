ghost use Rattle.std.specs.Prelude.{◌≡◌, ◌+◌, ◌++◌, ℕ, List, length, chars};
ghost use Rattle.py_lexer.specs.Faults.{begins_with};

use py_chars::first_char;

/// The front of a text, up to what stands behind it.
pub fn before<'a>(text: &'a str, behind: &str) -> &'a str
    requires { (w : List ℕ) × (chars text.now ≡ w ++ chars behind.now) }
    ensures front { (w : List ℕ) → chars text.now ≡ w ++ chars behind.now → chars result.now ≡ w }
    ensures len { length result.now + length behind.now ≡ length text.now }
{
    &text[..text.len() - behind.len()]
}

/// Whether the text begins with the character.
pub fn starts_with(c: char, text: &str) -> bool
    ensures { result ≡ begins_with c (chars text.now) }
{
    match first_char(text) {
        None => false,
        Some((first, _)) => first == c,
    }
}
