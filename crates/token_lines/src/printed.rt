ghost use Rattle.std.specs.Prelude.{◌≡◌};
ghost use Rattle.token_lines.specs.Spaces.{mark_shape, what_shape, shape_of, stands_off, gap};

use spelled_tokens::{Mark, What};

/// A token as it stands in a line that is printed.
#[derive(Drop)]
pub enum Printed {
    /// A minus in front of its one part. It is told apart from the operator with two parts, since no space stands behind it.
    Minus,
    /// Every other token.
    Plain(What),
}

/// What decides whether a space stands between two tokens of a line.
#[derive(Clone, Copy, Debug, PartialEq, Eq)]
pub enum Shape {
    /// No token, but the beginning of a line.
    Edge,
    /// A name, a string, or a word that no space has to follow.
    Word,
    /// A number.
    Number,
    /// A word behind which there is always a space.
    Keyword,
    /// A comma or a colon, with a space behind.
    Spaced,
    /// An operator with two parts, with a space on both sides.
    Operator,
    /// The dot of an attribute.
    Dot,
    /// A bracket, or a minus in front of its part.
    Tight,
}

fn mark_shape(mark: Mark) -> Shape
    ensures { result ≡ mark_shape mark }
{
    match mark {
        Mark::Equals | Mark::Arrow => Shape::Operator,
        Mark::Colon => Shape::Spaced,
        Mark::Class | Mark::Def | Mark::Return | Mark::If | Mark::Elif | Mark::While => {
            Shape::Keyword
        }
        Mark::Int | Mark::Bool | Mark::Str | Mark::Dyn | Mark::Callable => Shape::Word,
        Mark::Pass | Mark::Print | Mark::Start | Mark::Else => Shape::Word,
        Mark::OpenSquare
        | Mark::CloseSquare
        | Mark::Newline
        | Mark::Indent
        | Mark::Dedent
        | Mark::End
        | Mark::Unused => Shape::Tight,
    }
}

fn what_shape(what: &What) -> Shape
    ensures { result ≡ what_shape what.now }
{
    match what {
        What::Name(_) | What::Text(_) | What::Bool(_) => Shape::Word,
        What::Nil | What::Cast | What::Join => Shape::Word,
        What::Number(_) => Shape::Number,
        What::Or | What::And | What::Operator(_) => Shape::Operator,
        What::Not => Shape::Keyword,
        What::Dot => Shape::Dot,
        What::Comma => Shape::Spaced,
        What::Open | What::Close => Shape::Tight,
        What::Mark(mark) => mark_shape(*mark),
    }
}

/// The shape of a token.
pub fn shape_of(token: &Printed) -> Shape
    ensures { result ≡ shape_of token.now }
{
    match token {
        Printed::Minus => Shape::Tight,
        Printed::Plain(what) => what_shape(what),
    }
}

/// Whether a space stands between a token of the one shape and a token of the other.
pub fn gap(before: Shape, next: Shape) -> bool
    ensures { result ≡ gap before next }
{
    match before {
        Shape::Edge => false,
        Shape::Keyword | Shape::Spaced | Shape::Operator => true,
        Shape::Dot | Shape::Tight => matches!(next, Shape::Operator),
        Shape::Word => stands_off(next),
        Shape::Number => matches!(next, Shape::Dot) || stands_off(next),
    }
}

fn stands_off(next: Shape) -> bool
    ensures { result ≡ stands_off next }
{
    matches!(
        next,
        Shape::Word | Shape::Number | Shape::Keyword | Shape::Operator
    )
}
