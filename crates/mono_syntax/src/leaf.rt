use crate::name::Name;

/// A place in the script's text. Lines and columns are counted in characters, from 1.
#[derive(Clone, Copy, Debug, PartialEq, Eq)]
pub struct Place {
    pub line: u32,
    pub column: u32,
}

/// A name with the place where it stands.
#[derive(Drop)]
pub struct Word {
    pub text: Name,
    pub place: Place,
}

/// A binary operator of arithmetic or comparison, in the order of the language's reference: `+ - * // % < <= > >= == !=`.
#[derive(Clone, Copy, Debug, PartialEq, Eq)]
pub enum Op {
    Add,
    Sub,
    Mul,
    Div,
    Mod,
    Lt,
    Le,
    Gt,
    Ge,
    Eq,
    Ne,
}

/// The position of a type in the list `types` of the value that holds it, counted from 0.
#[derive(Clone, Copy, Debug, PartialEq, Eq)]
pub struct TyAt(pub u32);

/// What stands at a site, and so what a blame or an error there says.
#[derive(Clone, Copy, Debug, PartialEq, Eq)]
pub enum Kind {
    Cast,
    Argument,
    Write,
    Return,
    Operator,
    Member,
    Call,
    Arithmetic,
    Name,
}

/// A place of the script at which its run can be blamed or fail. Source and target are those of a cast from one type to
/// another; a site of another kind has its own use for them, or none.
#[derive(Clone, Copy, Debug, PartialEq, Eq)]
pub struct Site {
    pub place: Place,
    pub kind: Kind,
    pub source: TyAt,
    pub target: TyAt,
}
