use mono_syntax::Place;

/// What a token is. A name or word that the language keeps for itself is `Reserved`, an operator is a `Sign`.
#[derive(Clone, Copy, Debug, PartialEq, Eq)]
pub enum TokenKind {
    Name,
    Reserved,
    Number,
    Str,
    Sign,
    Newline,
    Indent,
    Dedent,
    End,
}

/// A token: its text is the slice of the source from byte `from` up to byte `to`, which is empty for the last four kinds.
#[derive(Clone, Copy, Debug, PartialEq, Eq)]
pub struct Token {
    pub what: TokenKind,
    pub from: u32,
    pub to: u32,
    pub place: Place,
}
