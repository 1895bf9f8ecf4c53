ghost use Rattle.std.specs.Prelude.{◌≡◌};
ghost use Rattle.spelled_tokens.specs.Words.{expression_word, type_word, statement_word, mark_when, word_what, operator, punctuation, sign_what};

use crate::token::{Mark, What};
use mono_syntax::Op;

#[tactic(auto, unfolding(crate::specs::Words::expression_word))]
fn expression_word(word: &str) -> Option<What>
    ensures { result ≡ expression_word word.now }
{
    match word {
        "True" => Some(What::Bool(true)),
        "False" => Some(What::Bool(false)),
        "None" => Some(What::Nil),
        "or" => Some(What::Or),
        "and" => Some(What::And),
        "not" => Some(What::Not),
        "cast" => Some(What::Cast),
        "join" => Some(What::Join),
        _ => None,
    }
}

#[tactic(auto, unfolding(crate::specs::Words::type_word))]
fn type_word(word: &str) -> Option<Mark>
    ensures { result ≡ type_word word.now }
{
    match word {
        "int" => Some(Mark::Int),
        "bool" => Some(Mark::Bool),
        "str" => Some(Mark::Str),
        "Dyn" => Some(Mark::Dyn),
        "Callable" => Some(Mark::Callable),
        _ => None,
    }
}

#[tactic(auto, unfolding(crate::specs::Words::statement_word))]
fn statement_word(word: &str) -> Mark
    ensures { result ≡ statement_word word.now }
{
    match word {
        "class" => Mark::Class,
        "def" => Mark::Def,
        "pass" => Mark::Pass,
        "return" => Mark::Return,
        "print" => Mark::Print,
        "start" => Mark::Start,
        "if" => Mark::If,
        "elif" => Mark::Elif,
        "else" => Mark::Else,
        "while" => Mark::While,
        _ => Mark::Unused,
    }
}

fn mark_what(word: &str) -> What
    ensures { result ≡ mark_when (type_word word.now) word.now }
{
    match type_word(word) {
        Some(mark) => What::Mark(mark),
        None => What::Mark(statement_word(word)),
    }
}

/// What a reserved word is.
pub fn word_what(word: &str) -> What
    ensures { result ≡ word_what word.now }
{
    match expression_word(word) {
        Some(what) => what,
        None => mark_what(word),
    }
}

#[tactic(auto, unfolding(crate::specs::Words::operator))]
fn operator(sign: &str) -> Option<Op>
    ensures { result ≡ operator sign.now }
{
    match sign {
        "+" => Some(Op::Add),
        "-" => Some(Op::Sub),
        "*" => Some(Op::Mul),
        "//" => Some(Op::Div),
        "%" => Some(Op::Mod),
        "<" => Some(Op::Lt),
        "<=" => Some(Op::Le),
        ">" => Some(Op::Gt),
        ">=" => Some(Op::Ge),
        "==" => Some(Op::Eq),
        "!=" => Some(Op::Ne),
        _ => None,
    }
}

#[tactic(auto, unfolding(crate::specs::Words::punctuation))]
fn punctuation(sign: &str) -> What
    ensures { result ≡ punctuation sign.now }
{
    match sign {
        "." => What::Dot,
        "(" => What::Open,
        ")" => What::Close,
        "," => What::Comma,
        "[" => What::Mark(Mark::OpenSquare),
        "]" => What::Mark(Mark::CloseSquare),
        "=" => What::Mark(Mark::Equals),
        ":" => What::Mark(Mark::Colon),
        "->" => What::Mark(Mark::Arrow),
        _ => What::Mark(Mark::Unused),
    }
}

/// What an operator is.
pub fn sign_what(sign: &str) -> What
    ensures { result ≡ sign_what sign.now }
{
    match operator(sign) {
        Some(op) => What::Operator(op),
        None => punctuation(sign),
    }
}
