ghost use Rattle.std.specs.Prelude.{◌≡◌, ◌≤◌, length, IfSome};
ghost use Rattle.spelled_tokens.specs.Spelling.{text_behind, cut, spelling, inside};

use py_lexer::Token;

#[tactic(auto, using(crate::proofs::Cuts::at_boundary), unfolding(crate::specs::Spelling::cut))]
/// The text between two of its bytes, where both begin a character or end the text.
fn cut(text: &str, from: usize, to: usize) -> Option<&str>
    ensures value { text_behind result ≡ cut text.now from to }
    ensures within { IfSome result (λ part. length part.now ≤ length text.now) }
{
    if from <= to && text.is_char_boundary(from) && text.is_char_boundary(to) {
        Some(&text[from..to])
    } else {
        None
    }
}

/// What a token spells.
pub fn spelling<'a>(text: &'a str, token: &Token) -> Option<&'a str>
    ensures value { text_behind result ≡ spelling text.now token.now }
    ensures within { IfSome result (λ part. length part.now ≤ length text.now) }
{
    cut(text, token.from as usize, token.to as usize)
}

/// What stands between the quotes of a string.
pub fn inside<'a>(text: &'a str, token: &Token) -> Option<&'a str>
    ensures value { text_behind result ≡ inside text.now token.now }
    ensures within { IfSome result (λ part. length part.now ≤ length text.now) }
{
    cut(
        text,
        token.from as usize + 1,
        (token.to as usize).saturating_sub(1),
    )
}
