ghost use Rattle.std.specs.Prelude.{◌≡◌, ◌<◌, ◌+◌, [], ◌∷◌, length, chars, encode_utf8, MatchOption, IfSome};

/// The first character of a text, and what stands behind it.
pub fn first_char(text: &str) -> Option<(char, &str)>
    ensures parts { MatchOption result (chars text.now ≡ []) (λ r. chars text.now ≡ r.0 ∷ chars r.1.now) }
    ensures len { IfSome result (λ r. length text.now ≡ length (encode_utf8 r.0) + length r.1.now) }
    ensures shorter { IfSome result (λ r. length r.1.now < length text.now) }
{
    let mut rest = text.chars();
    match rest.next() {
        None => None,
        Some(first) => Some((first, rest.as_str())),
    }
}
